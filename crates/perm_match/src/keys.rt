ghost use Rattle.std.specs.Prelude.{◌≡◌, nat_eq};
ghost use Rattle.std.specs.List.{starts_with};
ghost use Rattle.perm_model.specs.Allowed.{allows_key, allows_text};
ghost use Rattle.perm_match.specs.Pieces.{joined};

use crate::pieces::{Pieces, next, one_piece};
use gtm_base::Text;
use perm_model::KeyPattern;

pub(crate) fn allows_key(pattern: &KeyPattern, key: &Text) -> bool
    ensures { result ≡ allows_key pattern.now key.now }
{
    match pattern {
        KeyPattern::Any => true,
        KeyPattern::Equal(text) => text == key,
        KeyPattern::Prefix(text) => begins(one_piece(key.as_str()), one_piece(text.as_str())),
    }
}

// Whether a text is the one of the pattern, where `*` is every text.
pub(crate) fn allows_text(pattern: &Text, text: &Text) -> bool
    ensures { result ≡ allows_text pattern.now text.now }
{
    pattern.is_word("*") || pattern == text
}

// Whether a text begins with these characters.
fn begins(text: Pieces, front: Pieces) -> bool
    ensures { result ≡ starts_with nat_eq (joined text.entry) (joined front.entry) }
{
    let mut here = text;
    let mut left = front;
    while let Some((c, rest)) = next(left) {
        match next(here) {
            Some((d, behind)) => {
                if c != d {
                    return false;
                }
                left = rest;
                here = behind;
            },
            None => return false,
        }
    }
    true
}
