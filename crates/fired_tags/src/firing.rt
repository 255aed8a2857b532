ghost use Rattle.std.specs.Prelude.{◌≡◌, IfOk, OnOk};
ghost use Rattle.export_model.specs.Small.{IsSmall};
ghost use Rattle.fired_tags.specs.Fired as spec;
ghost use Rattle.fired_tags.specs.Marks.{AreMarks};
ghost use Rattle.gtm_triggers.specs.Indexed.{put_if};

use crate::marks::{is_marked, marks_of};
use export_model::{Container, Tag, TriggerRef};
use gtm_base::{ListOf, OutOfMemory, Text};
use std::alloc::Global;

/// The places of tags in a container, counted from 0.
pub type TagRefs = ListOf<u32>;

/// The tags of a container that are fired at an event, in its order: those with a firing trigger
/// among these that hold, or with the built-in trigger of the event. Fails where memory is wanting.
pub fn fired(
    alloc: Global,
    container: &Container,
    holding: &[u32],
    event: &Text,
) -> Result<TagRefs, OutOfMemory>
    requires { IsSmall container.now.tags }
    ensures { IfOk result
        (λ places. places ≡ spec.fired holding.now event.now container.now.tags) }
{
    let marks = marks_of(alloc, holding)?;
    let mut places = TagRefs::new(alloc);
    for (at, tag) in container.tags.as_slice().iter().enumerate() {
        let is = is_fired(&marks, holding, event, tag);
        push_if(&mut places, is, at as u32)?;
    }
    Ok(places)
}

// Whether some firing trigger of a tag holds.
fn is_fired(marks: &Vec<bool>, holding: &[u32], event: &Text, tag: &Tag) -> bool
    requires { AreMarks marks.now.items holding.now }
    ensures { result ≡ spec.is_fired holding.now event.now tag.now }
{
    for trigger in tag.firing.as_slice() {
        if holds_by(marks, holding, event, trigger) {
            return true;
        }
    }
    false
}

// Whether a reference is to a trigger that holds.
fn holds_by(marks: &Vec<bool>, _holding: &[u32], event: &Text, trigger: &TriggerRef) -> bool
    requires { AreMarks marks.now.items _holding.now }
    ensures { result ≡ spec.holds_by _holding.now event.now trigger.now }
{
    match trigger {
        TriggerRef::Own(at) => is_marked(marks, *at),
        TriggerRef::AllPages => event.is_word("gtm.js"),
        TriggerRef::Init => event.is_word("gtm.init"),
        TriggerRef::ConsentInit => event.is_word("gtm.init_consent"),
        TriggerRef::Never => false,
    }
}

// Puts a place behind, if it is to be.
fn push_if(places: &mut TagRefs, is: bool, at: u32) -> Result<(), OutOfMemory>
    ensures { OnOk result (places.new ≡ put_if is at places.old) }
{
    if is { places.push(at) } else { Ok(()) }
}
