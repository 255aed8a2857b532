ghost use Rattle.std.specs.Prelude.{◌≡◌, ◌≤◌, ◌<◌, OnOk, length};
ghost use Rattle.std.specs.Str.{chars};
ghost use Rattle.gtm_data.specs.Tree.{tree_of, trees_of, entries_of};
ghost use Rattle.data_layer.specs.Merge as spec;
ghost use Rattle.data_layer.specs.Merge.{put, on_item};

use crate::inside::{items_of, members_of, text_of};
use gtm_base::{OutOfMemory, Text};
use gtm_data::{Data, Items, Members, copy};
use std::alloc::Global;

/// Merges the value into the model: Lists by index, Maps by key, and all else overwrites. Where
/// memory is wanting, the model is left half merged.
#[cycle(merge)]
#[tactic(auto, unfolding(crate::specs::Merge::merge))]
pub fn merge(alloc: Global, value: &Data, model: &mut Data) -> Result<(), OutOfMemory>
    ensures { OnOk result (tree_of model.new ≡ spec.merge (tree_of value.now) (tree_of model.old)) }
{
    match value {
        Data::List(items) => match items_of(model) {
            Some(old) => merge_items(alloc, items, old),
            None => overwrite(alloc, value, model),
        },
        Data::Map(members) => match members_of(model) {
            Some(old) => merge_members(alloc, members, old),
            None => overwrite(alloc, value, model),
        },
        _ => overwrite(alloc, value, model),
    }
}

/// Puts an equal value in place of another one. A text takes the place of a text in its memory.
pub fn overwrite(alloc: Global, value: &Data, model: &mut Data) -> Result<(), OutOfMemory>
    ensures { OnOk result (model.new ≡ value.now) }
{
    match value {
        Data::Text(text) => match text_of(model) {
            Some(old) => old.set(text.as_str()),
            None => replace(alloc, value, model),
        },
        _ => replace(alloc, value, model),
    }
}

fn replace(alloc: Global, value: &Data, model: &mut Data) -> Result<(), OutOfMemory>
    ensures { OnOk result (model.new ≡ value.now) }
{
    *model = copy(alloc, value)?;
    Ok(())
}

#[cycle(merge)]
fn merge_items(alloc: Global, items: &Items, model: &mut Items) -> Result<(), OutOfMemory>
    ensures { OnOk result
        (trees_of model.new ≡ spec.merge_items (trees_of items.now) (trees_of model.old)) }
{
    for (at, item) in items.as_slice().iter().enumerate() {
        merge_item(alloc, at, item, model)?;
    }
    Ok(())
}

// Merges an item into the one at its index, or puts it last.
#[cycle(merge)]
fn merge_item(alloc: Global, at: usize, item: &Data, model: &mut Items) -> Result<(), OutOfMemory>
    requires { at ≤ length model.old }
    ensures merged { OnOk result
        (trees_of model.new
        ≡ on_item at (spec.merge (tree_of item.now)) (tree_of item.now) (trees_of model.old)) }
    ensures within { OnOk result (at < length model.new) }
{
    if at < model.len() {
        merge(alloc, item, model.get_mut(at))
    } else {
        model.push(copy(alloc, item)?)
    }
}

#[cycle(merge)]
fn merge_members(alloc: Global, members: &Members, model: &mut Members) -> Result<(), OutOfMemory>
    ensures { OnOk result
        (entries_of model.new.pairs
        ≡ spec.merge_members (entries_of members.now.pairs) (entries_of model.old.pairs)) }
{
    for member in members.as_slice() {
        merge_member(alloc, member.0.as_str(), &member.1, model)?;
    }
    Ok(())
}

/// Merges a value into the one at its key, or puts a copy of it last.
#[cycle(merge)]
pub fn merge_member(
    alloc: Global,
    key: &str,
    value: &Data,
    model: &mut Members,
) -> Result<(), OutOfMemory>
    ensures { OnOk result
        (entries_of model.new.pairs
        ≡ put (chars key.now) (spec.merge (tree_of value.now)) (tree_of value.now)
        (entries_of model.old.pairs)) }
{
    match model.place_of(key) {
        Some(at) => merge(alloc, value, model.value_mut(at)),
        None => model.push(Text::from_str(alloc, key)?, copy(alloc, value)?),
    }
}
