ghost use Rattle.std.specs.Prelude.{◌≡◌, ◌<◌, ◌≤◌, ◌+◌, ℕ, List, length};
ghost use Rattle.reference_cycles.specs.Graph.{HasNoCycle, Refers};
ghost use Rattle.reference_heights.specs.Along.{height, higher};

/// A law, with nothing to call: where nothing leads back to itself, a place stands one higher than
/// the highest that it refers to, so each reference leads to a lower place; and no place stands
/// higher than the graph has places, and one more.
pub fn references_lead_lower()
    ensures one_more { (graph : List (List ℕ)) (at : ℕ) → HasNoCycle graph
        → height graph at ≡ higher graph (height graph) at }
    ensures lower { (graph : List (List ℕ)) (from to : ℕ) → HasNoCycle graph
        → Refers graph from to → height graph to < height graph from }
    ensures within { (graph : List (List ℕ)) (at : ℕ) → height graph at ≤ length graph + 1 }
{}
