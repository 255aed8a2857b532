ghost use Rattle.std.specs.Prelude.{◌↔◌, ℕ, Contains};
ghost use Rattle.reference_cycles.specs.Graph.{Refers};

use gtm_base::ListOf;

/// What a place refers to. A place behind the last one refers to nothing.
pub fn references(graph: &[ListOf<usize>], place: usize) -> &[usize]
    ensures { (to : ℕ) → Refers graph.now place to ↔ Contains result.now to }
{
    match graph.get(place) {
        Some(places) => places.as_slice(),
        None => &[],
    }
}
