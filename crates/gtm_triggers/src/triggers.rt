ghost use Rattle.std.specs.Prelude.{◌≡◌, All, IfOk, OnOk};
ghost use Rattle.std.specs.List.{list_all};
ghost use Rattle.export_model.specs.Sound.{InRange, IsConditionIn};
ghost use Rattle.variable_kinds.specs.Ends.{Asks};
ghost use Rattle.gtm_variables.specs.Asked.{asked};
ghost use Rattle.gtm_variables.specs.Kept.{Enters, IsFor, moment_of};
ghost use Rattle.gtm_variables.specs.Snapshot.{snapshot};
ghost use Rattle.gtm_triggers.specs.Asking.{asked_with_all};
ghost use Rattle.gtm_triggers.specs.Holding as spec;
ghost use Rattle.gtm_triggers.specs.Holding.{holds};
ghost use Rattle.gtm_triggers.specs.Indexed.{Indexes, held, put_if};

use crate::condition::holds;
use crate::fitting::fitting;
use crate::{Index, TriggerIds};
use export_model::Condition;
use gtm_base::{Engines, OutOfMemory, Text};
use gtm_variables::{TemplateCaller, ValueEnd, Values};
use std::alloc::Global;

impl Index {
    /// The triggers of the container that hold at an event, in its order: those whose kind fits it
    /// and all of whose conditions hold. The event may be the own message of a group, whose place
    /// is then `group`.
    ///
    /// `EngineRefused` comes only with a rise of the engines' count, with a text that the moment
    /// may ask them.
    pub fn holding<C: TemplateCaller, E: Engines>(
        &self,
        values: &mut Values,
        caller: &mut C,
        engines: &mut E,
        event: &Text,
        group: Option<u32>,
    ) -> Result<TriggerIds, ValueEnd>
        requires index { Indexes self.now values.old.container.now.triggers }
        requires in_range { InRange values.old.container.now }
        requires caller { IsFor C.meaning C.serves C.knows caller.old values.old }
        ensures value { IfOk result (λ places. places
            ≡ spec.holding (snapshot (moment_of values.old) (C.meaning caller.old)) event.now
            group) }
        ensures moment { moment_of values.new ≡ moment_of values.old }
        ensures caller { IsFor C.meaning C.serves C.knows caller.new values.new }
        ensures entered { Enters C.meaning C.serves C.knows C.keeps
            (snapshot (moment_of values.old) (C.meaning caller.old)) caller.old caller.new }
        ensures asks { Asks (asked (snapshot (moment_of values.old) (C.meaning caller.old)))
            result (E.state engines.old) (E.state engines.new) }
    {
        let mut places = TriggerIds::new(self.alloc);
        let fitting = fitting(self, values.container, event, group)?;
        for at in fitting.as_slice() {
            let is = holds_at(self.alloc, values, caller, engines, *at)?;
            push_if(&mut places, is, *at)?;
        }
        Ok(places)
    }
}

// Puts a place behind, if it is to be.
fn push_if(places: &mut TriggerIds, is: bool, at: u32) -> Result<(), OutOfMemory>
    ensures { OnOk result (places.new ≡ put_if is at places.old) }
{
    if is { places.push(at) } else { Ok(()) }
}

// Whether all conditions of the trigger at a place hold.
fn holds_at<C: TemplateCaller, E: Engines>(
    alloc: Global,
    values: &mut Values,
    caller: &mut C,
    engines: &mut E,
    at: u32,
) -> Result<bool, ValueEnd>
    requires in_range { InRange values.old.container.now }
    requires caller { IsFor C.meaning C.serves C.knows caller.old values.old }
    ensures value { IfOk result (λ is. is
        ≡ held (snapshot (moment_of values.old) (C.meaning caller.old))
        values.old.container.now.triggers at) }
    ensures moment { moment_of values.new ≡ moment_of values.old }
    ensures caller { IsFor C.meaning C.serves C.knows caller.new values.new }
    ensures entered { Enters C.meaning C.serves C.knows C.keeps
        (snapshot (moment_of values.old) (C.meaning caller.old)) caller.old caller.new }
    ensures asks { Asks (asked (snapshot (moment_of values.old) (C.meaning caller.old)))
        result (E.state engines.old) (E.state engines.new) }
{
    let container = values.container;
    match container.triggers.get(at as usize) {
        Some(trigger) => all_hold(
            alloc,
            values,
            caller,
            engines,
            trigger.conditions.as_slice(),
        ),
        None => Ok(false),
    }
}

// Whether all conditions hold.
fn all_hold<C: TemplateCaller, E: Engines>(
    alloc: Global,
    values: &mut Values,
    caller: &mut C,
    engines: &mut E,
    conditions: &[Condition],
) -> Result<bool, ValueEnd>
    requires conditions { All (IsConditionIn values.old.container.now) conditions.now }
    requires caller { IsFor C.meaning C.serves C.knows caller.old values.old }
    ensures value { IfOk result (λ is. is
        ≡ list_all (holds (snapshot (moment_of values.old) (C.meaning caller.old)))
        conditions.now) }
    ensures moment { moment_of values.new ≡ moment_of values.old }
    ensures caller { IsFor C.meaning C.serves C.knows caller.new values.new }
    ensures entered { Enters C.meaning C.serves C.knows C.keeps
        (snapshot (moment_of values.old) (C.meaning caller.old)) caller.old caller.new }
    ensures asks { Asks
        (asked_with_all (snapshot (moment_of values.old) (C.meaning caller.old)) conditions.now)
        result (E.state engines.old) (E.state engines.new) }
{
    for condition in conditions {
        if !holds(alloc, values, caller, engines, condition)? {
            return Ok(false);
        }
    }
    Ok(true)
}
