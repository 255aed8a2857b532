ghost use Rattle.std.specs.Prelude.{◌≡◌, false};
ghost use Rattle.std.specs.Str.{chars};
ghost use Rattle.sjs_lexer.specs.Characters.{is_in_line};
ghost use Rattle.sjs_lexer.specs.Found.{SkipsAll};
ghost use Rattle.sjs_lexer.specs.Reading.{seen, skip_while, past_block, past_comment, past_gap};

use crate::characters::{is_line_end, is_white};
use crate::steps::{behind_char, next};

// Past all white space and comments, and whether a line ends in them.
pub(crate) fn skip_gaps(text: &str) -> (bool, &str)
    ensures { SkipsAll (chars text.now) result.0 (chars result.1.now) }
{
    let mut left = text;
    let mut broken = false;
    while let Some((breaks, rest)) = past_gap(left) {
        broken = broken || breaks;
        left = rest;
    }
    (broken, left)
}

// Past the white space character or the comment that stands first, and whether a line ends in it.
fn past_gap(left: &str) -> Option<(bool, &str)>
    ensures { seen result ≡ past_gap (chars left.now) }
{
    let (first, rest) = next(left)?;
    if is_white(first) {
        return Some((is_line_end(first), rest));
    }
    if first == '/' {
        past_comment(rest)
    } else {
        None
    }
}

// Past a comment, from its second character on.
fn past_comment(left: &str) -> Option<(bool, &str)>
    ensures { seen result ≡ past_comment (chars left.now) }
{
    let (second, rest) = next(left)?;
    if second == '/' {
        return Some((false, skip_line(rest)));
    }
    if second == '*' {
        past_block(rest)
    } else {
        None
    }
}

fn skip_line(text: &str) -> &str
    ensures { chars result.now ≡ skip_while is_in_line (chars text.now) }
{
    let mut left = text;
    while let Some((c, rest)) = next(left) {
        if is_line_end(c) {
            break;
        }
        left = rest;
    }
    left
}

// Past the end of a comment of several lines, from its third character on.
fn past_block(text: &str) -> Option<(bool, &str)>
    ensures { seen result ≡ past_block false (chars text.now) }
{
    let mut left = text;
    let mut broken = false;
    while let Some((c, rest)) = next(left) {
        if c == '*' {
            if let Some(end) = behind_char('/', rest) {
                return Some((broken, end));
            }
        }
        broken = broken || is_line_end(c);
        left = rest;
    }
    None
}
