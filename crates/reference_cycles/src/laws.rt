ghost use Rattle.std.specs.Prelude.{◌≡◌, ◌↔◌, ◌<◌, ℕ, List, Some, None, length};
ghost use Rattle.reference_cycles.specs.Closure.{first_cycle};
ghost use Rattle.reference_cycles.specs.Graph.{Refers, Chain, Leads, HasNoCycle, IsFirstOnCycle};

/// A law, with nothing to call: a place leads to those that it refers to, so one that refers to
/// itself leads back to itself; and where it leads to a place, it leads to all that this one leads
/// to.
pub fn references_lead_on()
    ensures directly { (graph : List (List ℕ)) (from to : ℕ) → Refers graph from to
        → Leads graph from to }
    ensures onwards { (graph : List (List ℕ)) (from via to : ℕ) → Leads graph from via
        → Leads graph via to → Leads graph from to }
{}

/// A law, with nothing to call: the first place on a cycle by the closure of a graph is the first
/// that references lead back to, and there is none exactly where nothing leads back to itself.
pub fn the_closure_has_the_first_cycle()
    ensures first { (graph : List (List ℕ)) (place : ℕ) → (first_cycle graph ≡ Some place)
        ↔ IsFirstOnCycle graph place }
    ensures none { (graph : List (List ℕ)) → (first_cycle graph ≡ None) ↔ HasNoCycle graph }
{}

/// A law, with nothing to call: where no place of a graph leads back to itself, a chain of
/// references to a place of the graph has fewer references than the graph has places.
pub fn chains_are_shorter_than_the_graph()
    ensures { (graph : List (List ℕ)) (steps from to : ℕ) → HasNoCycle graph
        → Chain graph steps from to → to < length graph → steps < length graph }
{}
