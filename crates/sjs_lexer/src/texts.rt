ghost use Rattle.std.specs.Prelude.{◌≡◌, [], IfOk};
ghost use Rattle.std.specs.Str.{chars};
ghost use Rattle.sjs_lexer.specs.Reading.{seen, piece_at};
ghost use Rattle.sjs_lexer.specs.TextEnds.{EndsAt};

use crate::characters::is_line_end;
use crate::escapes::escape;
use crate::steps::{behind_char, next};
use gtm_base::{OutOfMemory, Text};

// Reads a text behind its first quote. Gives what stands behind the second, or `None` where it does
// not end well.
pub(crate) fn text<'a>(
    quote: char,
    start: &'a str,
    value: &mut Text,
) -> Result<Option<&'a str>, OutOfMemory>
    requires { value.old ≡ [] }
    ensures { IfOk result (EndsAt quote (chars start.now) value.new) }
{
    let mut left = start;
    while let Some((c, rest)) = piece(quote, left) {
        value.push(c)?;
        left = rest;
    }
    Ok(behind_char(quote, left))
}

// The character of a text that stands first.
fn piece(quote: char, left: &str) -> Option<(char, &str)>
    ensures { seen result ≡ piece_at quote (chars left.now) }
{
    let (first, rest) = next(left)?;
    if first == quote || is_line_end(first) {
        return None;
    }
    if first == '\\' {
        escape(rest)
    } else {
        Some((first, rest))
    }
}
