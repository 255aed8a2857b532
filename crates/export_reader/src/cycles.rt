ghost use Rattle.std.specs.Prelude.{◌≡◌, Some, None, IfOk, IfNone};
ghost use Rattle.export_model.specs.Graphs.{variable_graph, group_graph};
ghost use Rattle.export_reader.specs.Rules.{variable_cycle, group_cycle};
ghost use Rattle.reference_cycles.specs.Graph.{HasNoCycle};

use crate::paths::entry_path;
use export_model::{Container, group_graph, variable_graph};
use gtm_base::{OutOfMemory, Text};
use reference_cycles::first_on_cycle;
use std::alloc::Global;

/// The path of the first variable that refers to itself, by names in parameters and formats.
#[tactic(auto, unfolding(crate::specs::Rules::variable_cycle))]
pub fn variable_cycle(alloc: Global, container: &Container) -> Result<Option<Text>, OutOfMemory>
    ensures path { IfOk result (λ path. path ≡ variable_cycle container.now) }
    ensures none { IfOk result (λ path. IfNone path (HasNoCycle (variable_graph container.now))) }
{
    let graph = variable_graph(alloc, container)?;
    let found = first_on_cycle(alloc, graph.as_slice())?;
    entry_path(alloc, "variable", found)
}

/// The path of the first group of triggers that is among its own members, or theirs.
#[tactic(auto, unfolding(crate::specs::Rules::group_cycle))]
pub fn group_cycle(alloc: Global, container: &Container) -> Result<Option<Text>, OutOfMemory>
    ensures path { IfOk result (λ path. path ≡ group_cycle container.now) }
    ensures none { IfOk result (λ path. IfNone path (HasNoCycle (group_graph container.now))) }
{
    let graph = group_graph(alloc, container)?;
    let found = first_on_cycle(alloc, graph.as_slice())?;
    entry_path(alloc, "trigger", found)
}
