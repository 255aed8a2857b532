ghost use Rattle.std.specs.Prelude.{◌≡◌, ◌⊎◌, ◌<◌, ℕ, Some, true, false, length, Contains, IfOk};
ghost use Rattle.std.specs.Prelude.{IfSome, OnOk, OnErr, MatchOption};
ghost use Rattle.variable_kinds.specs.Ends.{Asks};
ghost use Rattle.gtm_variables.specs.Asked.{asked};
ghost use Rattle.gtm_variables.specs.Kept.{Enters, IsBegun, IsFor, IsPut, IsReady, SameMoment};
ghost use Rattle.gtm_variables.specs.Kept.{is_missing, left, moment_of};
ghost use Rattle.gtm_variables.specs.Snapshot.{snapshot};

use crate::caller::TemplateCaller;
use crate::computing::computed;
use crate::stacking::{first, pop_missing, push, push_missing};
use crate::{ValueEnd, Values};
use gtm_base::Engines;

// Computes the value of the variable at a place, and keeps it.
fn keep<C: TemplateCaller, E: Engines>(
    values: &mut Values,
    caller: &mut C,
    engines: &mut E,
    at: usize,
) -> Result<(), ValueEnd>
    requires within { at < length values.old.container.now.variables }
    requires begun { IsBegun values.old }
    requires ready { IsReady values.old at }
    requires caller { IsFor C.meaning C.serves C.knows caller.old values.old }
    ensures put { OnOk result (IsPut values.old values.new at) }
    ensures kept { OnErr result (values.new.kept.items ≡ values.old.kept.items) }
    ensures same { SameMoment values.old values.new }
    ensures caller { IsFor C.meaning C.serves C.knows caller.new values.new }
    ensures entered { Enters C.meaning C.serves C.knows C.keeps
        (snapshot (moment_of values.old) (C.meaning caller.old)) caller.old caller.new }
    ensures asks { Asks (asked (snapshot (moment_of values.old) (C.meaning caller.old)))
        result (E.state engines.old) (E.state engines.new) }
{
    let variable = &values.container.variables.as_slice()[at];
    let kept = computed(values, caller, engines, at as u32, variable)?;
    values.kept[at] = Some(kept);
    Ok(())
}

// One turn at a place with no value: it waits for those that it refers to, or else is computed.
// Answers the next such place.
fn turn<C: TemplateCaller, E: Engines>(
    values: &mut Values,
    caller: &mut C,
    engines: &mut E,
    waiting: &mut Vec<usize>,
    top: usize,
) -> Result<Option<usize>, ValueEnd>
    requires within { top < length values.old.container.now.variables }
    requires waiting { (p : ℕ) → Contains waiting.old.items p
        → p < length values.old.container.now.variables }
    requires missing { is_missing values.old top ≡ true }
    requires begun { IsBegun values.old }
    requires caller { IsFor C.meaning C.serves C.knows caller.old values.old }
    ensures waiting { OnOk result ((p : ℕ) → Contains waiting.new.items p
        → p < length values.old.container.now.variables) }
    ensures missing { IfOk result (λ next. IfSome next
        (λ p. (is_missing values.new p ≡ true)
        × (p < length values.old.container.now.variables))) }
    ensures pending { IfOk result (λ next. (p : ℕ) → (p ≡ top) ⊎ Contains waiting.old.items p
        → is_missing values.new p ≡ true
        → MatchOption next ⊥ (λ q. (p ≡ q) ⊎ Contains waiting.new.items p)) }
    ensures smaller { IfOk result (λ next. left values.new next < left values.old (Some top)) }
    ensures stays { (p : ℕ) → is_missing values.old p ≡ false → is_missing values.new p ≡ false }
    ensures begun { IsBegun values.new }
    ensures same { SameMoment values.old values.new }
    ensures caller { IsFor C.meaning C.serves C.knows caller.new values.new }
    ensures entered { Enters C.meaning C.serves C.knows C.keeps
        (snapshot (moment_of values.old) (C.meaning caller.old)) caller.old caller.new }
    ensures asks { Asks (asked (snapshot (moment_of values.old) (C.meaning caller.old)))
        result (E.state engines.old) (E.state engines.new) }
{
    push(waiting, top)?;
    match push_missing(values, waiting, top)? {
        Some(next) => Ok(Some(next)),
        None => {
            keep(values, caller, engines, top)?;
            Ok(pop_missing(values, waiting))
        },
    }
}

/// Computes the value of the variable at a place, and before it those of all that it refers to,
/// without recursion.
pub fn fill<C: TemplateCaller, E: Engines>(
    values: &mut Values,
    caller: &mut C,
    engines: &mut E,
    at: usize,
) -> Result<(), ValueEnd>
    requires within { at < length values.old.container.now.variables }
    requires begun { IsBegun values.old }
    requires caller { IsFor C.meaning C.serves C.knows caller.old values.old }
    ensures there { OnOk result (is_missing values.new at ≡ false) }
    ensures stays { (p : ℕ) → is_missing values.old p ≡ false → is_missing values.new p ≡ false }
    ensures begun { IsBegun values.new }
    ensures same { SameMoment values.old values.new }
    ensures caller { IsFor C.meaning C.serves C.knows caller.new values.new }
    ensures entered { Enters C.meaning C.serves C.knows C.keeps
        (snapshot (moment_of values.old) (C.meaning caller.old)) caller.old caller.new }
    ensures asks { Asks (asked (snapshot (moment_of values.old) (C.meaning caller.old)))
        result (E.state engines.old) (E.state engines.new) }
{
    let mut waiting = Vec::new(values.alloc);
    let mut next = first(values, at);
    while let Some(top) = next {
        next = turn(values, caller, engines, &mut waiting, top)?;
    }
    Ok(())
}
