ghost use Rattle.std.specs.Prelude.{◌≡◌, ◌∷◌, IfOk, OnOk};
ghost use Rattle.gtm_data.specs.Tree.{tree_of, entries_of, object, entry, none};
ghost use Rattle.data_layer.specs.Layer.{nest};
ghost use Rattle.data_layer.specs.Merge.{put};
ghost use Rattle.page_world.specs.Globals as spec;

use data_layer::members_of;
use gtm_base::{OutOfMemory, Text};
use gtm_data::{Data, Members};
use std::alloc::Global;

/// Puts a value at the parts, and Maps on the way to them where there is none. Where memory is
/// wanting, the tree is left half changed.
#[cycle(set)]
pub fn set_at(
    alloc: Global,
    parts: &[Text],
    value: Data,
    tree: &mut Data,
) -> Result<(), OutOfMemory>
    ensures { OnOk result
        (tree_of tree.new ≡ spec.set_at parts.now (tree_of value) (tree_of tree.old)) }
{
    match parts {
        [] => {
            *tree = value;
            Ok(())
        },
        [part, rest @ ..] => set_below(alloc, part, rest, value, tree),
    }
}

// The same of a path with a first part.
#[cycle(set)]
fn set_below(
    alloc: Global,
    part: &Text,
    rest: &[Text],
    value: Data,
    tree: &mut Data,
) -> Result<(), OutOfMemory>
    ensures { OnOk result
        (tree_of tree.new ≡ spec.set_at (part.now ∷ rest.now) (tree_of value) (tree_of tree.old)) }
{
    match members_of(tree) {
        Some(members) => set_member(alloc, part, rest, value, members),
        None => replace(alloc, part, rest, value, tree),
    }
}

// Puts a value at the rest of the parts, within the member that the first one names.
#[cycle(set)]
fn set_member(
    alloc: Global,
    part: &Text,
    rest: &[Text],
    value: Data,
    members: &mut Members,
) -> Result<(), OutOfMemory>
    ensures { OnOk result
        (entries_of members.new.pairs
        ≡ put part.now (spec.set_at rest.now (tree_of value)) (nest rest.now (tree_of value))
        (entries_of members.old.pairs)) }
{
    match members.place_of(part.as_str()) {
        Some(at) => set_at(alloc, rest, value, members.value_mut(at)),
        None => members.push(part.copy(alloc)?, nested(alloc, rest, value)?),
    }
}

fn replace(
    alloc: Global,
    part: &Text,
    rest: &[Text],
    value: Data,
    tree: &mut Data,
) -> Result<(), OutOfMemory>
    ensures { OnOk result (tree_of tree.new ≡ nest (part.now ∷ rest.now) (tree_of value)) }
{
    *tree = map_of(part.copy(alloc)?, nested(alloc, rest, value)?, alloc)?;
    Ok(())
}

// The value, nested in Maps under the parts.
fn nested(alloc: Global, parts: &[Text], value: Data) -> Result<Data, OutOfMemory>
    ensures { IfOk result (λ made. tree_of made ≡ nest parts.now (tree_of value)) }
{
    match parts {
        [] => Ok(value),
        [part, rest @ ..] => map_of(part.copy(alloc)?, nested(alloc, rest, value)?, alloc),
    }
}

// A Map with this member alone.
fn map_of(key: Text, value: Data, alloc: Global) -> Result<Data, OutOfMemory>
    ensures { IfOk result (λ made. tree_of made ≡ object (entry key (tree_of value) none)) }
{
    let mut members = Members::new(alloc);
    members.push(key, value)?;
    Ok(Data::Map(members))
}
