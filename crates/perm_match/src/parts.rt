ghost use Rattle.std.specs.Prelude.{◌≡◌, ◌==◌};
ghost use Rattle.std.specs.List.{list_any};
ghost use Rattle.std.specs.Str.{bytes_eq};
ghost use Rattle.perm_model.specs.Allowed.{allows_ask, allows_part, allows_query_of};
ghost use Rattle.perm_model.specs.Allowed.{is_same_part};

use gtm_base::Text;
use perm_model::{AddressParts, Ask, Part};

pub(crate) fn allows_ask(parts: &AddressParts, ask: &Ask) -> bool
    ensures { result ≡ allows_ask parts.now ask.now }
{
    match ask {
        Ask::Whole => parts.any_part,
        Ask::Part(part) => allows_part(parts, *part) && allows_query_of(parts, *part),
        Ask::Key(key) => {
            allows_part(parts, Part::Query)
                && (parts.any_query || is_among(parts.keys.as_slice(), key))
        },
    }
}

fn allows_part(parts: &AddressParts, part: Part) -> bool
    ensures { result ≡ allows_part parts.now part }
{
    parts.any_part || is_part_among(parts.parts.as_slice(), part)
}

fn allows_query_of(parts: &AddressParts, part: Part) -> bool
    ensures { result ≡ allows_query_of parts.now part }
{
    match part {
        Part::Query => parts.any_query,
        _ => true,
    }
}

fn is_part_among(parts: &[Part], part: Part) -> bool
    ensures { result ≡ list_any (is_same_part part) parts.now }
{
    for other in parts {
        if is_same_part(part, *other) {
            return true;
        }
    }
    false
}

fn is_same_part(part: Part, other: Part) -> bool
    ensures { result ≡ is_same_part part other }
{
    part == other
}

fn is_among(keys: &[Text], key: &Text) -> bool
    ensures { result ≡ list_any (λ k. bytes_eq k key.now) keys.now }
{
    for other in keys {
        if other == key {
            return true;
        }
    }
    false
}
