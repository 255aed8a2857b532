ghost use Rattle.std.specs.Prelude.{◌≡◌, ◌++◌, ℕ, List, option_map};
ghost use Rattle.std.specs.Str.{chars};
ghost use Rattle.sjs_lexer.specs.Characters.{is_name_char};
ghost use Rattle.sjs_lexer.specs.Reading.{skip_while, behind};

use crate::characters::is_name_char;
use crate::steps::next;

// What stands behind the characters of a name.
pub(crate) fn skip_name(text: &str) -> &str
    ensures { chars result.now ≡ skip_while is_name_char (chars text.now) }
{
    let mut left = text;
    while let Some((c, rest)) = next(left) {
        if !is_name_char(c) {
            break;
        }
        left = rest;
    }
    left
}

// The front of a text before its rest.
pub(crate) fn front<'a>(text: &'a str, rest: &str) -> &'a str
    requires { (word : List ℕ) × (chars text.now ≡ word ++ chars rest.now) }
    ensures { chars text.now ≡ chars result.now ++ chars rest.now }
{
    text.split_at(text.len() - rest.len()).0
}

// What stands behind so many characters, or `None` where there are fewer.
pub(crate) fn skip(count: usize, text: &str) -> Option<&str>
    ensures { option_map (λ rest. chars rest.now) result ≡ behind count (chars text.now) }
{
    let mut left = text;
    let mut more = count;
    while more > 0 {
        let (_, rest) = next(left)?;
        left = rest;
        more -= 1;
    }
    Some(left)
}
