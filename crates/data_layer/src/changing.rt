ghost use Rattle.std.specs.Prelude.{◌≡◌, IfOk, OnOk, [], Some, is_some};
ghost use Rattle.gtm_data.specs.Paths.{member, named, numbered};
ghost use Rattle.gtm_data.specs.Tree.{tree_of, trees_of, entries_of};
ghost use Rattle.data_layer.specs.Change.{changed_at, change_named, change_member, change_numbered};
ghost use Rattle.data_layer.specs.Target.{items_under, changed_by};

use crate::commands::Command;
use crate::indexes::index_below;
use crate::inside::{items_of, members_of};
use crate::methods::run_method;
use gtm_base::{OutOfMemory, Text};
use gtm_data::{Data, Items, Members};
use std::alloc::Global;

/// Runs the method of a command on the List to which the parts lead, one after the other, and
/// answers whether they lead to a List. Where memory is wanting, the List is left half changed.
#[cycle(change)]
pub fn change_at(
    alloc: Global,
    parts: &[Text],
    command: &Command,
    model: &mut Data,
) -> Result<bool, OutOfMemory>
    ensures told { IfOk result
        (λ ran. ran ≡ is_some (items_under parts.now (Some (tree_of model.old)))) }
    ensures changed { OnOk result
        (tree_of model.new ≡ changed_at parts.now (changed_by command.now) (tree_of model.old)) }
{
    match parts {
        [] => change_list(alloc, command, model),
        [part, rest @ ..] => change_inside(alloc, part, rest, command, model),
    }
}

fn change_list(alloc: Global, command: &Command, model: &mut Data) -> Result<bool, OutOfMemory>
    ensures told { IfOk result (λ ran. ran ≡ is_some (items_under [] (Some (tree_of model.old)))) }
    ensures changed { OnOk result (tree_of model.new ≡ changed_by command.now (tree_of model.old)) }
{
    match items_of(model) {
        Some(list) => {
            run_method(alloc, command.method, command.items, list)?;
            Ok(true)
        }
        None => Ok(false),
    }
}

// The same within the value that a part names.
#[cycle(change)]
fn change_inside(
    alloc: Global,
    part: &Text,
    rest: &[Text],
    command: &Command,
    model: &mut Data,
) -> Result<bool, OutOfMemory>
    ensures told { IfOk result
        (λ ran. ran ≡ is_some (items_under rest.now (named part.now (tree_of model.old)))) }
    ensures changed { OnOk result
        (tree_of model.new
        ≡ change_named part.now (changed_at rest.now (changed_by command.now))
        (tree_of model.old)) }
{
    if let Some(members) = members_of(model) {
        return change_in_map(alloc, part, rest, command, members);
    }
    match items_of(model) {
        Some(items) => change_in_list(alloc, part, rest, command, items),
        None => Ok(false),
    }
}

#[cycle(change)]
fn change_in_map(
    alloc: Global,
    part: &Text,
    rest: &[Text],
    command: &Command,
    model: &mut Members,
) -> Result<bool, OutOfMemory>
    ensures told { IfOk result
        (λ ran. ran
        ≡ is_some (items_under rest.now (member part.now (entries_of model.old.pairs)))) }
    ensures changed { OnOk result
        (entries_of model.new.pairs
        ≡ change_member part.now (changed_at rest.now (changed_by command.now))
        (entries_of model.old.pairs)) }
{
    match model.place_of(part.as_str()) {
        Some(at) => change_at(alloc, rest, command, model.value_mut(at)),
        None => Ok(false),
    }
}

#[cycle(change)]
fn change_in_list(
    alloc: Global,
    part: &Text,
    rest: &[Text],
    command: &Command,
    model: &mut Items,
) -> Result<bool, OutOfMemory>
    ensures told { IfOk result
        (λ ran. ran ≡ is_some (items_under rest.now (numbered 0 part.now (trees_of model.old)))) }
    ensures changed { OnOk result
        (trees_of model.new
        ≡ change_numbered 0 part.now (changed_at rest.now (changed_by command.now))
        (trees_of model.old)) }
{
    match index_below(model.len(), part.as_str()) {
        Some(at) => change_at(alloc, rest, command, model.get_mut(at)),
        None => Ok(false),
    }
}
