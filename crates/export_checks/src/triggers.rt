ghost use Rattle.std.specs.Prelude.{◌≡◌, codes, IfOk, option_map};
ghost use Rattle.export_fields.specs.Fault.{in_index};
ghost use Rattle.export_names.specs.Lists.{lists_of};
ghost use Rattle.export_checks.specs.FirstFault.{list_fault};
ghost use Rattle.export_checks.specs.UnknownTriggers.{unknown_trigger, tag_trigger_fault, id_fault};
ghost use Rattle.export_checks.specs.UnknownTriggers.{group_fault, first_list_fault};
ghost use Rattle.export_checks.specs.UnknownTriggers.{members_fault};

use crate::numbers::is_unknown;
use crate::paths::{item_path, member_path};
use export_entries::{WrittenEntries, WrittenTag, WrittenTags, WrittenTrigger, WrittenTriggers};
use export_fields::{WrittenParam, WrittenParams, index_before, key_before};
use export_names::{Known, Numbers, is_group, is_member_list};
use gtm_base::{OutOfMemory, Text, Texts};
use std::alloc::Global;

/// The path, from the container version, of the first number of a trigger that stands for none: of
/// those of each tag, its firing triggers before its blocking ones, and then of those of each
/// group's members. A number stands for the trigger of the container that has it, and one of at
/// least 2147479000 for a trigger of Tag Manager's own. `None` where each stands for one. Fails
/// where memory is wanting.
pub fn unknown_trigger(
    alloc: Global,
    known: &Known,
    written: &WrittenEntries,
) -> Result<Option<Text>, OutOfMemory>
    requires { known.now ≡ lists_of written.now }
    ensures { IfOk result (λ found. found ≡ unknown_trigger written.now) }
{
    let tag = in_tags(alloc, &known.triggers, &written.tags)?;
    if tag.is_some() {
        return Ok(tag);
    }
    in_groups(alloc, &known.triggers, &written.triggers)
}

// The first unknown number of a tag.
fn in_tags(alloc: Global, ids: &Numbers, tags: &WrittenTags) -> Result<Option<Text>, OutOfMemory>
    ensures { IfOk result
        (λ found. found ≡ list_fault (codes "tag") (tag_trigger_fault ids.now) tags.now) }
{
    for (at, tag) in tags.as_slice().iter().enumerate() {
        if let Some(path) = in_tag(alloc, ids, tag)? {
            let whole = item_path(alloc, "tag", at, &path)?;
            return Ok(Some(whole));
        }
    }
    Ok(None)
}

// The first unknown number of this tag: of its firing triggers, then of its blocking ones.
fn in_tag(alloc: Global, ids: &Numbers, tag: &WrittenTag) -> Result<Option<Text>, OutOfMemory>
    ensures { IfOk result (λ found. found ≡ tag_trigger_fault ids.now tag.now) }
{
    let firing = in_list(alloc, ids, "firingTriggerId", &tag.firing)?;
    if firing.is_some() {
        return Ok(firing);
    }
    in_list(alloc, ids, "blockingTriggerId", &tag.blocking)
}

// The first unknown number in the list of numbers at a key.
fn in_list(
    alloc: Global,
    ids: &Numbers,
    key: &str,
    list: &Texts,
) -> Result<Option<Text>, OutOfMemory>
    ensures { IfOk result (λ found. found ≡ list_fault key.now (id_fault ids.now) list.now) }
{
    for (at, id) in list.as_slice().iter().enumerate() {
        if is_unknown(ids, id) {
            let whole = item_path(alloc, key, at, &Text::new(alloc))?;
            return Ok(Some(whole));
        }
    }
    Ok(None)
}

// The first unknown number of a group's member.
fn in_groups(
    alloc: Global,
    ids: &Numbers,
    triggers: &WrittenTriggers,
) -> Result<Option<Text>, OutOfMemory>
    ensures { IfOk result
        (λ found. found ≡ list_fault (codes "trigger") (group_fault ids.now) triggers.now) }
{
    for (at, trigger) in triggers.as_slice().iter().enumerate() {
        if let Some(path) = in_group(alloc, ids, trigger)? {
            let whole = item_path(alloc, "trigger", at, &path)?;
            return Ok(Some(whole));
        }
    }
    Ok(None)
}

// The first unknown number of a member of this trigger, where it is a group.
fn in_group(
    alloc: Global,
    ids: &Numbers,
    trigger: &WrittenTrigger,
) -> Result<Option<Text>, OutOfMemory>
    ensures { IfOk result (λ found. found ≡ group_fault ids.now trigger.now) }
{
    if !is_group(alloc, trigger)? {
        return Ok(None);
    }
    match in_first_list(alloc, ids, &trigger.params)? {
        Some(path) => Ok(Some(key_before(alloc, "parameter", &path)?)),
        None => Ok(None),
    }
}

// The first unknown number in the first list of members among these parameters.
fn in_first_list(
    alloc: Global,
    ids: &Numbers,
    params: &WrittenParams,
) -> Result<Option<Text>, OutOfMemory>
    ensures { IfOk result (λ found. found ≡ first_list_fault ids.now 0 params.now) }
{
    for (at, param) in params.as_slice().iter().enumerate() {
        if is_member_list(param) {
            return in_list_at(alloc, ids, at, param);
        }
    }
    Ok(None)
}

// The first unknown number in the list of members at a place among the parameters.
fn in_list_at(
    alloc: Global,
    ids: &Numbers,
    at: usize,
    param: &WrittenParam,
) -> Result<Option<Text>, OutOfMemory>
    ensures { IfOk result
        (λ found. found ≡ option_map (in_index at) (members_fault ids.now param.now)) }
{
    match in_members(alloc, ids, param)? {
        Some(path) => Ok(Some(index_before(alloc, at, &path)?)),
        None => Ok(None),
    }
}

// The first unknown number in a list of members.
fn in_members(
    alloc: Global,
    ids: &Numbers,
    param: &WrittenParam,
) -> Result<Option<Text>, OutOfMemory>
    ensures { IfOk result (λ found. found ≡ members_fault ids.now param.now) }
{
    for (at, member) in param.list.as_slice().iter().enumerate() {
        if is_unknown(ids, &member.value) {
            let path = member_path(alloc, "value")?;
            let whole = item_path(alloc, "list", at, &path)?;
            return Ok(Some(whole));
        }
    }
    Ok(None)
}
