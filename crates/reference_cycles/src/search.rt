ghost use Rattle.std.specs.Prelude.{◌↔◌, ◌<◌, IsTrue, IfOk, MatchOption};
ghost use Rattle.reference_cycles.specs.Graph.{Leads, HasNoCycle, IsFirstOnCycle};

use crate::graph::references;
use crate::reached::Reached;
use gtm_base::{ListOf, OutOfMemory};
use std::alloc::Global;

/// Whether the place leads back to itself, by all that it leads to.
pub fn leads_back(alloc: Global, graph: &[ListOf<usize>], start: usize) -> Result<bool, OutOfMemory>
    ensures { IfOk result (λ answer. IsTrue answer ↔ Leads graph.now start start) }
{
    let mut reached = Reached::new(alloc, graph.len())?;
    reached.add_all(references(graph, start))?;
    let mut next = 0;
    while next < reached.places.len() {
        let place = reached.places[next];
        reached.add_all(references(graph, place))?;
        next += 1;
    }
    Ok(reached.has(start))
}

/// The first place that leads back to itself, by a search from each place in turn.
pub fn first_by_search(alloc: Global, graph: &[ListOf<usize>]) -> Result<Option<usize>, OutOfMemory>
    ensures { IfOk result
        (λ found. MatchOption found (HasNoCycle graph.now) (IsFirstOnCycle graph.now)) }
{
    for place in 0..graph.len() {
        if leads_back(alloc, graph, place)? {
            return Ok(Some(place));
        }
    }
    Ok(None)
}
