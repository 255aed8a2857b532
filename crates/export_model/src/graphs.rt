ghost use Rattle.std.specs.Prelude.{◌≡◌, IfOk};
ghost use Rattle.std.specs.List.{filter_map};
ghost use Rattle.export_model.specs.Graphs.{variable_at, variable_graph, trigger_at, group_graph};
ghost use Rattle.export_model.specs.Names.{names_in, names_of_variable};
ghost use Rattle.export_model.specs.Params.{value_of};

use crate::names::{push_named_by_format, push_named_by_params, push_named_by_value};
use crate::{Container, ParamValue, TriggerRef, TriggerRefs, Variable};
use gtm_base::{ListOf, OutOfMemory};
use std::alloc::Global;

/// For each variable of a container, in order, the places of the variables that its parameters and
/// its format name, as often and in the order as they stand there. Fails where memory is wanting.
pub fn variable_graph(
    alloc: Global,
    container: &Container,
) -> Result<ListOf<ListOf<usize>>, OutOfMemory>
    ensures { IfOk result (λ made. made ≡ variable_graph container.now) }
{
    let mut graph = ListOf::new(alloc);
    for variable in container.variables.as_slice() {
        graph.push(named_by_variable(alloc, variable)?)?;
    }
    Ok(graph)
}

/// The places of the variables that a variable names: those in its parameters, then those in its
/// format. Fails where memory is wanting.
#[tactic(auto, using(crate::proofs::Joined::joined))]
pub fn named_by_variable(alloc: Global, variable: &Variable) -> Result<ListOf<usize>, OutOfMemory>
    ensures { IfOk result (λ made. made ≡ filter_map variable_at (names_of_variable variable.now)) }
{
    let mut found = ListOf::new(alloc);
    push_named_by_params(&mut found, &variable.params)?;
    push_named_by_format(&mut found, &variable.format)?;
    Ok(found)
}

/// The places of the variables that the value of a parameter names. Fails where memory is wanting.
pub fn named_by_value(alloc: Global, value: &ParamValue) -> Result<ListOf<usize>, OutOfMemory>
    ensures { IfOk result (λ made. made ≡ filter_map variable_at (names_in (value_of value.now))) }
{
    let mut found = ListOf::new(alloc);
    push_named_by_value(&mut found, value)?;
    Ok(found)
}

/// For each trigger of a container, in order, the places of those that are members of its group.
/// Fails where memory is wanting.
pub fn group_graph(
    alloc: Global,
    container: &Container,
) -> Result<ListOf<ListOf<usize>>, OutOfMemory>
    ensures { IfOk result (λ made. made ≡ group_graph container.now) }
{
    let mut graph = ListOf::new(alloc);
    for trigger in container.triggers.as_slice() {
        graph.push(own_members(alloc, &trigger.members)?)?;
    }
    Ok(graph)
}

// The places of the members that are triggers of the container's own.
fn own_members(alloc: Global, members: &TriggerRefs) -> Result<ListOf<usize>, OutOfMemory>
    ensures { IfOk result (λ made. made ≡ filter_map trigger_at members.now) }
{
    let mut places = ListOf::new(alloc);
    for member in members.as_slice() {
        if let TriggerRef::Own(at) = *member {
            places.push(at as usize)?;
        }
    }
    Ok(places)
}
