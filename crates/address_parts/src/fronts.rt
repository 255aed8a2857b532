ghost use Rattle.std.specs.Prelude.{◌≡◌, [], ◌∷◌, IfOk, MatchOption, option_map};
ghost use Rattle.std.specs.Str.{chars};
ghost use Rattle.address_parts.specs.Fronts as spec;

use gtm_base::{OutOfMemory, Text};
use std::alloc::Global;

/// A copy of what stands before the first of these characters, or of all where there is none.
pub fn before(alloc: Global, text: &str, mark: char) -> Result<Text, OutOfMemory>
    ensures { IfOk result (λ front. front ≡ spec.before mark (chars text.now)) }
{
    let mut front = Text::new(alloc);
    let mut rest = text;
    while let Some((c, behind)) = next_char(rest) {
        if c == mark {
            return Ok(front);
        }
        front.push(c)?;
        rest = behind;
    }
    Ok(front)
}

/// What stands behind the last of these characters, if there is one. Takes no memory.
pub fn behind_last(text: &str, mark: char) -> Option<&str>
    ensures { option_map (λ found. chars found.now) result
        ≡ spec.behind_last mark (chars text.now) }
{
    let mut found = None;
    let mut rest = text;
    while let Some((c, behind)) = next_char(rest) {
        if c == mark {
            found = Some(behind);
        }
        rest = behind;
    }
    found
}

/// What stands behind this front, if the text begins with it. Takes no memory.
pub fn behind_front<'a>(front: &str, text: &'a str) -> Option<&'a str>
    ensures { option_map (λ found. chars found.now) result
        ≡ spec.behind_front (chars front.now) (chars text.now) }
{
    let mut left = front;
    let mut rest = text;
    while let Some((c, more)) = next_char(left) {
        match next_char(rest) {
            Some((d, behind)) => {
                if d != c {
                    return None;
                }
                left = more;
                rest = behind;
            },
            None => return None,
        }
    }
    Some(rest)
}

// The first character, and what stands behind it.
fn next_char(text: &str) -> Option<(char, &str)>
    ensures { MatchOption result (chars text.now ≡ []) (λ r. chars text.now ≡ r.0 ∷ chars r.1.now) }
{
    let mut chars = text.chars();
    let first = chars.next()?;
    Some((first, chars.as_str()))
}
