ghost use Rattle.std.specs.Prelude.{◌≡◌, ◌+◌, nat_lt, List, map, is_some, unwrap_or, option_map};
ghost use Rattle.std.specs.Prelude.{option_and_then, IfOk, OnOk};
ghost use Rattle.std.specs.List.{list_any};
ghost use Rattle.gtm_data.specs.Paths.{dotted};
ghost use Rattle.gtm_data.specs.Tree as tree;
ghost use Rattle.gtm_data.specs.Tree.{Tree, tree_of};
ghost use Rattle.data_layer.specs.Command.{commanded, command_in, command_of, method_named};
ghost use Rattle.data_layer.specs.Command.{model_after, adds_too_deep};
ghost use Rattle.data_layer.specs.Target.{asked};

use crate::changing::change_at;
use crate::measuring::depth;
use crate::nesting::parts;
use gtm_base::{OutOfMemory, Text, Texts};
use gtm_data::{Data, MAX_DEPTH};
use std::alloc::Global;

/// What a command array does to a List.
#[derive(Clone, Copy, Debug, PartialEq, Eq)]
pub enum Method {
    /// Puts the items behind the last.
    Push,
    /// Takes out the last item.
    Pop,
    /// Takes out the first item.
    Shift,
    /// Puts the items before the first.
    Unshift,
    /// Turns the order of the items round.
    Reverse,
}

/// A method of the List at a path, with the items that go with it.
#[derive(Drop)]
pub struct Command<'a> {
    pub path: Texts,
    pub method: Method,
    pub items: &'a [Data],
}

/// Runs a pushed List as a command array on the model, and answers whether it was not ignored.
/// Where memory is wanting, the model is left half changed.
pub fn run(alloc: Global, pushed: &Data, model: &mut Data) -> Result<bool, OutOfMemory>
    ensures told { IfOk result
        (λ ran. ran ≡ is_some (commanded (tree_of pushed.now) (tree_of model.old))) }
    ensures changed { OnOk result
        (tree_of model.new
        ≡ unwrap_or (commanded (tree_of pushed.now) (tree_of model.old)) (tree_of model.old)) }
{
    let Some((words, items)) = words_and_items(pushed) else {
        return Ok(false);
    };
    let Some((path, method)) = path_and_method(alloc, words)? else {
        return Ok(false);
    };
    let command = Command {
        path,
        method,
        items,
    };
    run_command(alloc, &command, model)
}

fn run_command(alloc: Global, command: &Command, model: &mut Data) -> Result<bool, OutOfMemory>
    ensures told { IfOk result
        (λ ran. ran ≡ is_some (model_after (asked command.now) (tree_of model.old))) }
    ensures changed { OnOk result
        (tree_of model.new
        ≡ unwrap_or (model_after (asked command.now) (tree_of model.old)) (tree_of model.old)) }
{
    if adds_too_deep(command) {
        return Ok(false);
    }
    change_at(alloc, command.path.as_slice(), command, model)
}

// Whether an item that the command adds would nest over `MAX_DEPTH` deep.
fn adds_too_deep(command: &Command) -> bool
    ensures { result ≡ adds_too_deep (asked command.now) }
{
    match command.method {
        Method::Push | Method::Unshift => nest_too_deep(command.path.len(), command.items),
        _ => false,
    }
}

// Whether one of the items would nest over `MAX_DEPTH` deep in a List under so many parts.
fn nest_too_deep(parts: usize, items: &[Data]) -> bool
    ensures { result
        ≡ list_any (λ t. nat_lt MAX_DEPTH (tree.depth t + parts + 1)) (map tree_of items.now) }
{
    for item in items {
        if depth(item).saturating_add(parts) >= MAX_DEPTH {
            return true;
        }
    }
    false
}

// The first item of a List, if it is a text, and the others.
fn words_and_items(pushed: &Data) -> Option<(&Text, &[Data])>
    ensures { command_in (tree_of pushed.now)
        ≡ option_and_then (λ found. command_of (dotted found.0.now) (map tree_of found.1.now))
        result }
{
    let Data::List(list) = pushed else {
        return None;
    };
    let [first, items @ ..] = list.as_slice() else {
        return None;
    };
    Some((first.as_text()?, items))
}

// The parts of the words but for the last, and the method that the last one names.
fn path_and_method(alloc: Global, words: &Text) -> Result<Option<(Texts, Method)>, OutOfMemory>
    ensures { IfOk result
        (λ found. (items : List Tree)
        → command_of (dotted words.now) items
        ≡ option_map (λ pair. record { path = pair.0; method = pair.1; items = items }) found) }
{
    let mut path = parts(alloc, words.as_str())?;
    let Some(name) = path.pop() else {
        return Ok(None);
    };
    let Some(method) = method_named(&name) else {
        return Ok(None);
    };
    Ok(Some((path, method)))
}

fn method_named(name: &Text) -> Option<Method>
    ensures { result ≡ method_named name.now }
{
    if name.is_word("push") {
        Some(Method::Push)
    } else if name.is_word("pop") {
        Some(Method::Pop)
    } else if name.is_word("shift") {
        Some(Method::Shift)
    } else if name.is_word("unshift") {
        Some(Method::Unshift)
    } else if name.is_word("reverse") {
        Some(Method::Reverse)
    } else {
        None
    }
}
