ghost use Rattle.std.specs.Prelude.{◌≡◌, ◌+◌, min, nat_lt, length};
ghost use Rattle.std.specs.Str.{chars};
ghost use Rattle.gtm_data.specs.Paths.{dotted};
ghost use Rattle.gtm_data.specs.Tree.{tree_of, trees_of, entries_of, items_depth, members_depth};
ghost use Rattle.gtm_data.specs.Tree as spec;
ghost use Rattle.data_layer.specs.Layer.{is_too_deep};

use gtm_data::{Data, Items, MAX_DEPTH, Members};

/// Whether the parts of some member's key and the depth of its value are over `MAX_DEPTH` together.
/// Takes no memory.
pub fn is_too_deep(members: &Members) -> bool
    ensures { result ≡ is_too_deep (entries_of members.now.pairs) }
{
    for member in members.as_slice() {
        if levels(member.0.as_str(), &member.1) > MAX_DEPTH {
            return true;
        }
    }
    false
}

// Over `MAX_DEPTH` where the parts of the key and the depth of the value are together, and else
// not.
fn levels(key: &str, value: &Data) -> usize
    ensures { nat_lt MAX_DEPTH result
        ≡ nat_lt MAX_DEPTH (length (dotted (chars key.now)) + spec.depth (tree_of value.now)) }
{
    let depth = depth(value);
    // A key has at most one part more than it has bytes.
    if key.len().saturating_add(depth) < MAX_DEPTH {
        return depth;
    }
    part_count(key).saturating_add(depth)
}

fn part_count(key: &str) -> usize
    ensures { result ≡ length (dotted (chars key.now)) }
{
    key.split('.').count()
}

/// The depth of a value, or `MAX_DEPTH + 1` for all that is deeper.
#[cycle(depth)]
#[tactic(auto, unfolding(gtm_data::specs::Tree::depth))]
pub fn depth(value: &Data) -> usize
    ensures { result ≡ min (MAX_DEPTH + 1) (spec.depth (tree_of value.now)) }
{
    match value {
        Data::List(items) => one_more(items_depth(items)),
        Data::Map(members) => one_more(members_depth(members)),
        _ => 0,
    }
}

#[cycle(depth)]
#[tactic(auto, unfolding(gtm_data::specs::Tree::depth))]
fn items_depth(items: &Items) -> usize
    ensures { result ≡ min (MAX_DEPTH + 1) (items_depth (trees_of items.now)) }
{
    let mut greatest = 0;
    for item in items.as_slice() {
        greatest = depth(item).max(greatest);
    }
    greatest
}

#[cycle(depth)]
#[tactic(auto, unfolding(gtm_data::specs::Tree::depth))]
fn members_depth(members: &Members) -> usize
    ensures { result ≡ min (MAX_DEPTH + 1) (members_depth (entries_of members.now.pairs)) }
{
    let mut greatest = 0;
    for member in members.as_slice() {
        greatest = depth(&member.1).max(greatest);
    }
    greatest
}

fn one_more(count: usize) -> usize
    ensures { result ≡ min (MAX_DEPTH + 1) (count + 1) }
{
    count.min(MAX_DEPTH) + 1
}
