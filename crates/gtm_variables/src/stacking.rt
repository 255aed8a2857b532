ghost use Rattle.std.specs.Prelude.{◌≡◌, ◌⊎◌, ◌<◌, ◌++◌, ◌∷◌, [], ℕ, true, false, length};
ghost use Rattle.std.specs.Prelude.{Contains, IfOk, IfSome, IfNone, OnOk, MatchOption};
ghost use Rattle.export_model.specs.Graphs.{variable_graph};
ghost use Rattle.reference_cycles.specs.Graph.{Refers};
ghost use Rattle.gtm_variables.specs.Kept.{IsReady, is_missing};

use crate::Values;
use export_model::named_by_variable;
use gtm_base::OutOfMemory;

// Whether nothing is kept for a place.
fn is_missing(values: &Values, at: usize) -> bool
    ensures { result ≡ is_missing values.now at }
{
    match values.kept.get(at) {
        Some(Some(_)) => false,
        _ => true,
    }
}

/// The place, where nothing is kept for it. Takes no memory.
pub fn first(values: &Values, at: usize) -> Option<usize>
    ensures missing { IfSome result (λ p. (is_missing values.now p ≡ true) × (p ≡ at)) }
    ensures there { IfNone result (is_missing values.now at ≡ false) }
{
    if is_missing(values, at) {
        Some(at)
    } else {
        None
    }
}

/// Puts a place behind the waiting ones.
pub fn push(waiting: &mut Vec<usize>, place: usize) -> Result<(), OutOfMemory>
    ensures { OnOk result (waiting.new.items ≡ waiting.old.items ++ place ∷ []) }
{
    waiting.push(place)?;
    Ok(())
}

/// Puts those places that the variable at a place refers to and for which nothing is kept behind
/// the waiting ones, and answers the last of them.
pub fn push_missing(
    values: &Values,
    waiting: &mut Vec<usize>,
    at: usize,
) -> Result<Option<usize>, OutOfMemory>
    requires { at < length values.now.container.now.variables }
    ensures more { OnOk result
        ((p : ℕ) → Contains waiting.old.items p → Contains waiting.new.items p) }
    ensures only { OnOk result ((p : ℕ) → Contains waiting.new.items p
        → Contains waiting.old.items p
        ⊎ Refers (variable_graph values.now.container.now) at p) }
    ensures next { IfOk result (λ next. MatchOption next (IsReady values.now at)
        (λ p. (is_missing values.now p ≡ true)
        × Refers (variable_graph values.now.container.now) at p)) }
{
    let variable = &values.container.variables.as_slice()[at];
    let places = named_by_variable(values.alloc, variable)?;
    push_missing_of(values, waiting, places.as_slice())
}

// Puts those of the places for which nothing is kept behind the waiting ones, and answers the last
// of them.
fn push_missing_of(
    values: &Values,
    waiting: &mut Vec<usize>,
    places: &[usize],
) -> Result<Option<usize>, OutOfMemory>
    ensures more { OnOk result
        ((p : ℕ) → Contains waiting.old.items p → Contains waiting.new.items p) }
    ensures only { OnOk result ((p : ℕ) → Contains waiting.new.items p
        → Contains waiting.old.items p ⊎ Contains places.now p) }
    ensures next { IfOk result (λ next. MatchOption next
        ((p : ℕ) → Contains places.now p → is_missing values.now p ≡ false)
        (λ p. (is_missing values.now p ≡ true) × Contains places.now p)) }
{
    let mut next = None;
    for place in places {
        if is_missing(values, *place) {
            waiting.push(*place)?;
            next = Some(*place);
        }
    }
    Ok(next)
}

/// Takes the last of the waiting places for which nothing is kept, and drops those behind it. Takes
/// no memory.
pub fn pop_missing(values: &Values, waiting: &mut Vec<usize>) -> Option<usize>
    ensures missing { IfSome result (λ p. is_missing values.now p ≡ true) }
    ensures among { IfSome result (λ p. Contains waiting.old.items p) }
    ensures fewer { (p : ℕ) → Contains waiting.new.items p → Contains waiting.old.items p }
    ensures left { (p : ℕ) → Contains waiting.old.items p → is_missing values.now p ≡ true
        → MatchOption result ⊥ (λ place. (p ≡ place) ⊎ Contains waiting.new.items p) }
{
    while let Some(place) = waiting.pop() {
        if is_missing(values, place) {
            return Some(place);
        }
    }
    None
}
