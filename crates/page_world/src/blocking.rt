ghost use Rattle.std.specs.Prelude.{◌≡◌, ◌∷◌};
ghost use Rattle.gtm_data.specs.Tree.{tree_of};
ghost use Rattle.page_world.specs.Globals.{is_blocked, is_in_the_way};

use gtm_base::Text;
use gtm_data::{Data, MAX_DEPTH};

/// Whether nothing can be set at the parts: they are over `MAX_DEPTH`, or something on the way to
/// them is no Map. Takes no memory.
pub fn is_blocked(parts: &[Text], globals: &Data) -> bool
    ensures { result ≡ is_blocked parts.now (tree_of globals.now) }
{
    parts.len() > MAX_DEPTH || is_in_the_way(parts, globals)
}

#[cycle(way)]
fn is_in_the_way(parts: &[Text], value: &Data) -> bool
    ensures { result ≡ is_in_the_way parts.now (tree_of value.now) }
{
    match parts {
        [] => false,
        [part, rest @ ..] => stops(part, rest, value),
    }
}

// The same of a path with a first part.
#[cycle(way)]
fn stops(part: &Text, rest: &[Text], value: &Data) -> bool
    ensures { result ≡ is_in_the_way (part.now ∷ rest.now) (tree_of value.now) }
{
    match value {
        Data::Map(members) => match members.get(part.as_str()) {
            Some(found) => is_in_the_way(rest, found),
            None => false,
        },
        _ => true,
    }
}
