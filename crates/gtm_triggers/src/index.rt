ghost use Rattle.std.specs.Prelude.{◌≡◌, ℕ, List, IfOk, OnOk};
ghost use Rattle.std.specs.Str.{bytes_eq};
ghost use Rattle.export_model.specs.Small.{IsSmall};
ghost use Rattle.gtm_triggers.specs.Indexed.{Indexes, is_custom, is_for, kept_for, put_if};

use export_model::{Container, TriggerKind};
use gtm_base::{Keyed, ListOf, OutOfMemory, Text};
use std::alloc::Global;

/// The places of triggers in a container, counted from 0.
pub type TriggerIds = ListOf<u32>;

/// The triggers of a container by the events that they fit.
#[derive(Debug, Drop)]
pub struct Index {
    pub(crate) alloc: Global,
    /// Those that fit every event, in the order of the container.
    pub customs: TriggerIds,
    /// Those for one event, by its name, each list in the order of the container.
    pub by_event: Keyed<TriggerIds>,
}

impl Index {
    /// The index of a container's triggers. Fails where memory is wanting.
    pub fn new(alloc: Global, container: &Container) -> Result<Index, OutOfMemory>
        requires { IsSmall container.now.triggers }
        ensures { IfOk result (λ index. Indexes index container.now.triggers) }
    {
        let mut index = Index {
            alloc,
            customs: TriggerIds::new(alloc),
            by_event: Keyed::new(alloc),
        };
        for (at, trigger) in container.triggers.as_slice().iter().enumerate() {
            add(&mut index, at as u32, &trigger.kind)?;
        }
        Ok(index)
    }
}

// Puts the place of a trigger behind those for the same events.
fn add(index: &mut Index, at: u32, kind: &TriggerKind) -> Result<(), OutOfMemory>
    ensures customs { OnOk result
        (index.new.customs ≡ put_if (is_custom kind.now) at index.old.customs) }
    ensures events { OnOk result ((event : List ℕ) → kept_for index.new.by_event.pairs event
        ≡ put_if (is_for event kind.now) at (kept_for index.old.by_event.pairs event)) }
{
    match kind {
        TriggerKind::Custom => index.customs.push(at),
        TriggerKind::Event(name) => push(index.alloc, &mut index.by_event, name, at),
        TriggerKind::Group => Ok(()),
        TriggerKind::Never(_) => Ok(()),
    }
}

// Puts a place behind those that are kept for an event.
fn push(
    alloc: Global,
    by_event: &mut Keyed<TriggerIds>,
    event: &Text,
    at: u32,
) -> Result<(), OutOfMemory>
    ensures { OnOk result ((other : List ℕ) → kept_for by_event.new.pairs other
        ≡ put_if (bytes_eq event.now other) at (kept_for by_event.old.pairs other)) }
{
    match by_event.place_of(event.as_str()) {
        Some(found) => by_event.value_mut(found).push(at),
        None => {
            let mut places = TriggerIds::new(alloc);
            places.push(at)?;
            by_event.push(event.copy(alloc)?, places)
        },
    }
}
