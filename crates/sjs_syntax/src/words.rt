ghost use Rattle.std.specs.Prelude.{◌≡◌, IfSome, IfNone, nat_eq, option_map};
ghost use Rattle.std.specs.List.{starts_with};
ghost use Rattle.std.specs.Str.{chars};
ghost use Rattle.sjs_syntax.specs.Entries.{entries};
ghost use Rattle.sjs_syntax.specs.Words.{is_entry, is_left_out_entry, first_entry, words, signs};
ghost use Rattle.sjs_syntax.specs.Words.{is_word, is_left_out, IsLongestSign, BeginsWithNoSign};

use Standing::{Grammar, LeftOut};

/// What it means that a word or a sign stands where no script can have it.
#[derive(Clone, Copy, Debug, PartialEq, Eq)]
pub enum Standing {
    /// It is out of place: the grammar has it, and nothing else would.
    Grammar,
    /// It begins or joins a form that scripts at large have, and that is left out here. `in`, `=>`
    /// and the comma count so too, though the grammar has them in other places.
    LeftOut,
}

/// The reserved words: none of them is a name. They are those of ECMAScript 2015 (11.6.2), and
/// `let`, `undefined`, `arguments`, `async`, `await` and `of`, which may be names there.
pub const WORDS: [(&str, Standing); 42] = [
    ("if", Grammar),
    ("else", Grammar),
    ("while", Grammar),
    ("do", Grammar),
    ("for", Grammar),
    ("var", Grammar),
    ("let", Grammar),
    ("const", Grammar),
    ("in", LeftOut),
    ("break", Grammar),
    ("continue", Grammar),
    ("return", Grammar),
    ("function", Grammar),
    ("typeof", Grammar),
    ("true", Grammar),
    ("false", Grammar),
    ("null", Grammar),
    ("undefined", Grammar),
    ("switch", LeftOut),
    ("case", LeftOut),
    ("default", LeftOut),
    ("try", LeftOut),
    ("catch", LeftOut),
    ("finally", LeftOut),
    ("throw", LeftOut),
    ("new", LeftOut),
    ("this", LeftOut),
    ("arguments", LeftOut),
    ("delete", LeftOut),
    ("instanceof", LeftOut),
    ("void", LeftOut),
    ("with", LeftOut),
    ("class", LeftOut),
    ("extends", LeftOut),
    ("super", LeftOut),
    ("import", LeftOut),
    ("export", LeftOut),
    ("yield", LeftOut),
    ("async", LeftOut),
    ("await", LeftOut),
    ("of", LeftOut),
    ("debugger", LeftOut),
];

/// The signs, the longest first.
pub const SIGNS: [(&str, Standing); 47] = [
    ("===", Grammar),
    ("!==", Grammar),
    ("...", LeftOut),
    ("=>", LeftOut),
    ("+=", Grammar),
    ("-=", Grammar),
    ("*=", Grammar),
    ("/=", Grammar),
    ("%=", Grammar),
    ("||", Grammar),
    ("&&", Grammar),
    ("==", Grammar),
    ("!=", Grammar),
    ("<=", Grammar),
    (">=", Grammar),
    ("++", Grammar),
    ("--", Grammar),
    ("<<", LeftOut),
    (">>", LeftOut),
    ("**", LeftOut),
    ("??", LeftOut),
    ("?.", LeftOut),
    ("{", Grammar),
    ("}", Grammar),
    (";", Grammar),
    ("(", Grammar),
    (")", Grammar),
    (",", LeftOut),
    ("=", Grammar),
    ("?", Grammar),
    (":", Grammar),
    ("<", Grammar),
    (">", Grammar),
    ("+", Grammar),
    ("-", Grammar),
    ("*", Grammar),
    ("/", Grammar),
    ("%", Grammar),
    ("!", Grammar),
    (".", Grammar),
    ("[", Grammar),
    ("]", Grammar),
    ("&", LeftOut),
    ("|", LeftOut),
    ("^", LeftOut),
    ("~", LeftOut),
    ("`", LeftOut),
];

/// Whether a text is a reserved word. Takes no memory.
pub fn is_word(text: &str) -> bool
    ensures { result ≡ is_word text.now }
{
    is_entry(&WORDS, text)
}

/// Whether a text is a word or a sign that, where no script can have it, is of a form which is left
/// out. Takes no memory.
pub fn is_left_out(text: &str) -> bool
    ensures { result ≡ is_left_out text.now }
{
    if is_left_out_word(text) {
        return true;
    }
    is_left_out_sign(text)
}

/// The longest sign with which a text begins, or `None` where it begins with none. Takes no memory.
pub fn sign_at(text: &str) -> Option<&'static str>
    ensures longest { IfSome result (λ sign. IsLongestSign (chars text.now) sign.now) }
    ensures none { IfNone result (BeginsWithNoSign (chars text.now)) }
{
    first_entry(&SIGNS, text)
}

fn is_left_out_word(text: &str) -> bool
    ensures { result ≡ is_left_out_entry words text.now }
{
    is_left_out_entry(&WORDS, text)
}

fn is_left_out_sign(text: &str) -> bool
    ensures { result ≡ is_left_out_entry signs text.now }
{
    is_left_out_entry(&SIGNS, text)
}

fn is_entry(table: &[(&str, Standing)], text: &str) -> bool
    ensures { result ≡ is_entry (entries table.now) text.now }
{
    for entry in table {
        if entry.0 == text {
            return true;
        }
    }
    false
}

fn is_left_out_entry(table: &[(&str, Standing)], text: &str) -> bool
    ensures { result ≡ is_left_out_entry (entries table.now) text.now }
{
    for entry in table {
        if entry.0 == text {
            return entry.1 == LeftOut;
        }
    }
    false
}

// The first text of a table with which a text begins.
fn first_entry<'a>(table: &[(&'a str, Standing)], text: &str) -> Option<&'a str>
    ensures { option_map (λ found. found.now) result ≡ first_entry (entries table.now) text.now }
{
    for entry in table {
        if begins(text, entry.0) {
            return Some(entry.0);
        }
    }
    None
}

fn begins(text: &str, front: &str) -> bool
    ensures { result ≡ starts_with nat_eq text.now front.now }
{
    text.starts_with(front)
}
