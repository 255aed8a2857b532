ghost use Rattle.std.specs.Prelude.{◌≡◌, not, IfOk, OnOk};
ghost use Rattle.gtm_data.specs.Tree.{tree_of, entries_of};
ghost use Rattle.data_layer.specs.Layer as spec;
ghost use Rattle.data_layer.specs.Layer.{is_ignored, after_members, version_one_after};
ghost use Rattle.data_layer.specs.Merge as merges;

use crate::measuring::is_too_deep;
use crate::merging::overwrite;
use crate::under::merge_under;
use gtm_base::{OutOfMemory, Text};
use gtm_data::{Data, Members, copy};
use std::alloc::Global;

/// Takes a message into the model and the values of version 1, and answers whether it was not
/// ignored. Where memory is wanting, both are left half changed.
pub fn take(
    alloc: Global,
    message: &Data,
    model: &mut Data,
    version_one: &mut Members,
) -> Result<bool, OutOfMemory>
    ensures told { IfOk result (λ took. took ≡ not (is_ignored (tree_of message.now))) }
    ensures taken { OnOk result
        (record { model = tree_of model.new; version_one = entries_of version_one.new.pairs }
        ≡ spec.after_message (tree_of message.now)
        (record { model = tree_of model.old; version_one = entries_of version_one.old.pairs })) }
{
    let Data::Map(members) = message else {
        return Ok(false);
    };
    if is_too_deep(members) {
        return Ok(false);
    }
    take_members(alloc, members, model, version_one)?;
    Ok(true)
}

fn take_members(
    alloc: Global,
    members: &Members,
    model: &mut Data,
    version_one: &mut Members,
) -> Result<(), OutOfMemory>
    ensures merged { OnOk result
        (tree_of model.new ≡ after_members (entries_of members.now.pairs) (tree_of model.old)) }
    ensures put { OnOk result
        (entries_of version_one.new.pairs
        ≡ version_one_after (entries_of members.now.pairs) (entries_of version_one.old.pairs)) }
{
    for member in members.as_slice() {
        merge_under(alloc, member.0.as_str(), &member.1, model)?;
        put_value(alloc, &member.0, &member.1, version_one)?;
    }
    Ok(())
}

// Puts a value in place of the one at its key, or last.
fn put_value(
    alloc: Global,
    key: &Text,
    value: &Data,
    values: &mut Members,
) -> Result<(), OutOfMemory>
    ensures { OnOk result
        (entries_of values.new.pairs
        ≡ merges.put key.now (λ _. tree_of value.now) (tree_of value.now)
        (entries_of values.old.pairs)) }
{
    match values.place_of(key.as_str()) {
        Some(at) => overwrite(alloc, value, values.value_mut(at)),
        None => values.push(key.copy(alloc)?, copy(alloc, value)?),
    }
}
