ghost use Rattle.std.specs.Prelude.{◌≡◌, ◌∷◌, [], IfOk, MatchOption};
ghost use Rattle.gtm_triggers.specs.Holding.{fits, places_from};
ghost use Rattle.gtm_triggers.specs.Indexed.{Indexes, group_places, kept_for};

use crate::merging::merged;
use crate::{Index, TriggerIds};
use export_model::{Container, TriggerKind};
use gtm_base::{Keyed, OutOfMemory, Text};

/// The places of the triggers whose kind fits an event, in the order of the container. Fails where
/// memory is wanting.
pub fn fitting(
    index: &Index,
    container: &Container,
    event: &Text,
    group: Option<u32>,
) -> Result<TriggerIds, OutOfMemory>
    requires { Indexes index.now container.now.triggers }
    ensures { IfOk result (λ places. places
        ≡ places_from (λ entry. fits event.now group entry.0 entry.1.kind) 0
        container.now.triggers) }
{
    let own = kept_for(&index.by_event, event);
    let places = merged(index.alloc, index.customs.as_slice(), own)?;
    match group_place(container, group) {
        Some(at) => merged(index.alloc, places.as_slice(), &[at]),
        None => Ok(places),
    }
}

// The places that are kept for an event.
fn kept_for<'a>(by_event: &'a Keyed<TriggerIds>, event: &Text) -> &'a [u32]
    ensures { result.now ≡ kept_for by_event.now.pairs event.now }
{
    match by_event.get(event.as_str()) {
        Some(places) => places.as_slice(),
        None => &[],
    }
}

// The place of a group, where one is there.
fn group_place(container: &Container, group: Option<u32>) -> Option<u32>
    ensures { MatchOption result (group_places group container.now.triggers ≡ [])
        (λ at. group_places group container.now.triggers ≡ at ∷ []) }
{
    let at = group?;
    let trigger = container.triggers.get(at as usize)?;
    match &trigger.kind {
        TriggerKind::Group => Some(at),
        _ => None,
    }
}
