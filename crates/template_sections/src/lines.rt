ghost use Rattle.std.specs.Prelude.{◌≡◌, ◌≤◌, length};
ghost use Rattle.std.specs.List.{prefix_len};
ghost use Rattle.template_sections.specs.Lines.{line_len};
ghost use Rattle.template_sections.specs.Headings.{heading_name, is_end, is_name_char, name_within};
ghost use Rattle.template_sections.specs.Found.{found};

const LINE_FEED: &[u8] = b"\n";

const RETURN_AND_FEED: &[u8] = b"\r\n";

const FRAME: &[u8] = b"___";

// How many bytes the first line has, its line feed included.
pub(crate) fn line_len(text: &[u8]) -> usize
    ensures value { result ≡ line_len text.now }
    ensures within { result ≤ length text.now }
{
    for (at, byte) in text.iter().enumerate() {
        if *byte == b'\n' {
            return at + 1;
        }
    }
    text.len()
}

// The name in a line that is a heading.
pub(crate) fn heading_name(line: &[u8]) -> Option<&[u8]>
    ensures { found result ≡ heading_name line.now }
{
    let (word, end) = line.split_at(word_len(line));
    if is_end(end) { name_within(word) } else { None }
}

// How many bytes stand at the front of which a heading can be made.
fn word_len(line: &[u8]) -> usize
    ensures value { result ≡ prefix_len is_name_char line.now }
    ensures within { result ≤ length line.now }
{
    for (at, byte) in line.iter().enumerate() {
        if !is_name_char(*byte) {
            return at;
        }
    }
    line.len()
}

fn is_name_char(byte: u8) -> bool
    ensures { result ≡ is_name_char byte }
{
    byte.is_ascii_uppercase() || byte.is_ascii_digit() || byte == b'_'
}

// The end of a line: a line feed, with or without a carriage return before it, or the text's end.
fn is_end(end: &[u8]) -> bool
    ensures { result ≡ is_end end.now }
{
    end.is_empty() || end == LINE_FEED || end == RETURN_AND_FEED
}

// What stands between the three underscores at the front and the three at the end.
fn name_within(word: &[u8]) -> Option<&[u8]>
    ensures { found result ≡ name_within word.now }
{
    if word.len() <= 6 {
        return None;
    }
    let (front, rest) = word.split_at(3);
    let (name, back) = rest.split_at(rest.len() - 3);
    if front == FRAME && back == FRAME {
        Some(name)
    } else {
        None
    }
}
