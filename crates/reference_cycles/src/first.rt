ghost use Rattle.std.specs.Prelude.{◌≡◌, ◌↔◌, ◌<◌, ℕ, length, IsTrue, IfOk, MatchOption};
ghost use Rattle.reference_cycles.specs.Closure.{first_cycle};
ghost use Rattle.reference_cycles.specs.Graph.{HasNoCycle, IsFirstOnCycle};
ghost use Rattle.reference_cycles.specs.Levels.{RefersNoHigher, RefersLower, IsFirstFlat};

use crate::graph::references;
use crate::levels::{component_levels, number_at};
use crate::search::{first_by_search, leads_back};
use gtm_base::{ListOf, OutOfMemory};
use std::alloc::Global;

/// Whether the place refers to none of a higher level.
fn refers_no_higher(graph: &[ListOf<usize>], levels: &[usize], place: usize) -> bool
    ensures { IsTrue result ↔ RefersNoHigher graph.now levels.now place }
{
    let level = number_at(levels, place);
    let places = references(graph, place);
    for to in places {
        if number_at(levels, *to) > level {
            return false;
        }
    }
    true
}

/// Whether the place refers to those of a lower level alone.
fn refers_lower(graph: &[ListOf<usize>], levels: &[usize], place: usize) -> bool
    ensures { IsTrue result ↔ RefersLower graph.now levels.now place }
{
    let level = number_at(levels, place);
    let places = references(graph, place);
    for to in places {
        if number_at(levels, *to) >= level {
            return false;
        }
    }
    true
}

/// Whether no place refers to one of a higher level.
fn nothing_rises(graph: &[ListOf<usize>], levels: &[usize]) -> bool
    ensures { IsTrue result ↔ ((place : ℕ) → RefersNoHigher graph.now levels.now place) }
{
    for place in 0..graph.len() {
        if !refers_no_higher(graph, levels, place) {
            return false;
        }
    }
    true
}

/// The first place that refers to one of no lower level.
fn first_flat(graph: &[ListOf<usize>], levels: &[usize]) -> Option<usize>
    ensures { MatchOption result ((place : ℕ) → RefersLower graph.now levels.now place)
        (IsFirstFlat graph.now levels.now) }
{
    for place in 0..graph.len() {
        if !refers_lower(graph, levels, place) {
            return Some(place);
        }
    }
    None
}

/// The first place that leads back to itself through references, or none. In time about linear in
/// places plus references, on any graph; it does not recurse. Fails where memory is wanting.
pub fn first_on_cycle(alloc: Global, graph: &[ListOf<usize>]) -> Result<Option<usize>, OutOfMemory>
    ensures found { IfOk result
        (λ found. MatchOption found (HasNoCycle graph.now) (IsFirstOnCycle graph.now)) }
    ensures computed { IfOk result (λ found. found ≡ first_cycle graph.now) }
{
    let found = first_by_levels(alloc, graph)?;
    Ok(found)
}

/// The first place that leads back to itself, by the levels of the strongly connected components;
/// by a search from each place in turn where these are not what they have to be.
fn first_by_levels(alloc: Global, graph: &[ListOf<usize>]) -> Result<Option<usize>, OutOfMemory>
    ensures { IfOk result
        (λ found. MatchOption found (HasNoCycle graph.now) (IsFirstOnCycle graph.now)) }
{
    let levels = component_levels(alloc, graph)?;
    let levels = levels.as_slice();
    if nothing_rises(graph, levels) {
        match first_flat(graph, levels) {
            Some(place) => {
                if leads_back(alloc, graph, place)? {
                    return Ok(Some(place));
                }
            }
            None => return Ok(None),
        }
    }
    first_by_search(alloc, graph)
}
