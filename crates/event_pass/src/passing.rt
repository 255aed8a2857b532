ghost use Rattle.std.specs.Prelude.{◌≡◌, IfOk, map};
ghost use Rattle.export_model.specs.Sound.{InRange};
ghost use Rattle.export_model.specs.Small.{IsSmall};
ghost use Rattle.variable_kinds.specs.Ends.{Asks};
ghost use Rattle.gtm_variables.specs.Asked.{asked};
ghost use Rattle.gtm_variables.specs.Kept.{Enters, IsFor, moment_of};
ghost use Rattle.gtm_variables.specs.Snapshot.{snapshot};
ghost use Rattle.gtm_triggers.specs.Indexed.{Indexes};
ghost use Rattle.event_pass.specs.Due.{due};
ghost use Rattle.event_pass.specs.Passing as spec;
ghost use Rattle.event_pass.specs.Passing.{due_of, pass_of};

use crate::params::params_at;
use fired_tags::fired;
use gtm_base::{Engines, ListOf};
use gtm_data::Data;
use gtm_triggers::{Index, TriggerIds};
use gtm_variables::{TemplateCaller, ValueEnd, Values};
use std::alloc::Global;

/// A tag that is due at an event.
#[derive(Debug, Drop)]
pub struct DueTag {
    /// Its place in the container, counted from 0.
    pub tag: u32,
    /// The Map of its parameters, by their keys.
    pub params: Data,
}

/// Tags that are due, in the order of the container.
pub type DueTags = ListOf<DueTag>;

/// What the pass of an event found.
#[derive(Debug, Drop)]
pub struct EventPass {
    /// The triggers that hold, in the order of the container.
    pub holding: TriggerIds,
    pub due: DueTags,
}

/// The pass of the event of `values`: the triggers that hold, and the tags that they fire with
/// their parameters. The event may be the own message of a group, whose place is then `group`.
///
/// `EngineRefused` comes only with a rise of the engines' count, with a text that the moment may
/// ask them.
pub fn pass<C: TemplateCaller, E: Engines>(
    alloc: Global,
    index: &Index,
    values: &mut Values,
    caller: &mut C,
    engines: &mut E,
    group: Option<u32>,
) -> Result<EventPass, ValueEnd>
    requires index { Indexes index.now values.old.container.now.triggers }
    requires in_range { InRange values.old.container.now }
    requires small { IsSmall values.old.container.now.tags }
    requires caller { IsFor C.meaning C.serves C.knows caller.old values.old }
    ensures value { IfOk result (λ made. pass_of made
        ≡ spec.pass (snapshot (moment_of values.old) (C.meaning caller.old)) group) }
    ensures moment { moment_of values.new ≡ moment_of values.old }
    ensures caller { IsFor C.meaning C.serves C.knows caller.new values.new }
    ensures entered { Enters C.meaning C.serves C.knows C.keeps
        (snapshot (moment_of values.old) (C.meaning caller.old)) caller.old caller.new }
    ensures asks { Asks (asked (snapshot (moment_of values.old) (C.meaning caller.old)))
        result (E.state engines.old) (E.state engines.new) }
{
    let event = values.event;
    let holding = index.holding(values, caller, engines, event, group)?;
    let due = due_tags(alloc, values, caller, engines, holding.as_slice())?;
    Ok(EventPass { holding, due })
}

// The tags that are fired where these triggers hold, with their parameters.
fn due_tags<C: TemplateCaller, E: Engines>(
    alloc: Global,
    values: &mut Values,
    caller: &mut C,
    engines: &mut E,
    holding: &[u32],
) -> Result<DueTags, ValueEnd>
    requires in_range { InRange values.old.container.now }
    requires small { IsSmall values.old.container.now.tags }
    requires caller { IsFor C.meaning C.serves C.knows caller.old values.old }
    ensures value { IfOk result (λ made. map due_of made
        ≡ due (snapshot (moment_of values.old) (C.meaning caller.old)) holding.now) }
    ensures moment { moment_of values.new ≡ moment_of values.old }
    ensures caller { IsFor C.meaning C.serves C.knows caller.new values.new }
    ensures entered { Enters C.meaning C.serves C.knows C.keeps
        (snapshot (moment_of values.old) (C.meaning caller.old)) caller.old caller.new }
    ensures asks { Asks (asked (snapshot (moment_of values.old) (C.meaning caller.old)))
        result (E.state engines.old) (E.state engines.new) }
{
    let places = fired(alloc, values.container, holding, values.event)?;
    let mut due = DueTags::new(alloc);
    for tag in places.as_slice() {
        let params = params_at(alloc, values, caller, engines, *tag)?;
        due.push(DueTag { tag: *tag, params })?;
    }
    Ok(due)
}
