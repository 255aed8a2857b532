ghost use Rattle.std.specs.Prelude.{◌≡◌, ◌++◌, IfOk, OnOk, filter};
ghost use Rattle.text_places.specs.Places.{place_of};
ghost use Rattle.export_names.specs.Values.{values_of};
ghost use Rattle.export_container.specs.References.{never_ids, never_of_tags, never_of_groups};
ghost use Rattle.export_container.specs.References.{is_place, each_once, references_of};
ghost use Rattle.export_names.specs.TriggerRefs.{trigger_ref, is_never};

use export_entries::{WrittenTags, WrittenTriggers};
use export_fields::WrittenParam;
use export_names::{ByName, Numbers, is_never, member_params, texts_of, trigger_ref};
use gtm_base::{OutOfMemory, Text, Texts};
use std::alloc::Global;
use text_places::Places;

/// The numbers that never hold, each once, in the order of the references to them: first those of
/// tags, firing before blocking for each, and then the members of groups. Fails where memory is
/// wanting.
pub fn references_of(
    alloc: Global,
    ids: &Numbers,
    tags: &WrittenTags,
    triggers: &WrittenTriggers,
) -> Result<Texts, OutOfMemory>
    ensures { IfOk result (λ made. made ≡ references_of ids.now tags.now triggers.now) }
{
    let mut never = Texts::new(alloc);
    push_never_of_tags(alloc, ids, &mut never, tags)?;
    push_never_of_groups(alloc, ids, &mut never, triggers)?;
    each_once(alloc, &never)
}

// Puts the numbers that never hold among those of tags behind the others.
fn push_never_of_tags(
    alloc: Global,
    ids: &Numbers,
    made: &mut Texts,
    tags: &WrittenTags,
) -> Result<(), OutOfMemory>
    ensures { OnOk result (made.new ≡ made.old ++ never_of_tags ids.now tags.now) }
{
    for tag in tags.as_slice() {
        push_never(alloc, ids, made, &tag.firing)?;
        push_never(alloc, ids, made, &tag.blocking)?;
    }
    Ok(())
}

// Puts the numbers that never hold among the members of groups behind the others.
fn push_never_of_groups(
    alloc: Global,
    ids: &Numbers,
    made: &mut Texts,
    triggers: &WrittenTriggers,
) -> Result<(), OutOfMemory>
    ensures { OnOk result (made.new ≡ made.old ++ never_of_groups ids.now triggers.now) }
{
    for trigger in triggers.as_slice() {
        push_never_members(alloc, ids, made, member_params(alloc, trigger)?)?;
    }
    Ok(())
}

// Puts those of the numbers that never hold behind the others.
fn push_never(
    alloc: Global,
    ids: &Numbers,
    made: &mut Texts,
    texts: &Texts,
) -> Result<(), OutOfMemory>
    ensures { OnOk result (made.new ≡ made.old ++ never_ids ids.now texts.now) }
{
    for id in texts.as_slice() {
        if is_never(trigger_ref(ids, id)) {
            made.push(id.copy(alloc)?)?;
        }
    }
    Ok(())
}

// Puts those of the numbers in the texts of parameters that never hold behind the others.
fn push_never_members(
    alloc: Global,
    ids: &Numbers,
    made: &mut Texts,
    params: &[WrittenParam],
) -> Result<(), OutOfMemory>
    ensures { OnOk result (made.new ≡ made.old ++ never_ids ids.now (values_of params.now)) }
{
    for param in params {
        if is_never(trigger_ref(ids, &param.value)) {
            made.push(param.value.copy(alloc)?)?;
        }
    }
    Ok(())
}

// Each of the texts once, where it stands first.
fn each_once(alloc: Global, texts: &Texts) -> Result<Texts, OutOfMemory>
    ensures { IfOk result (λ made. made ≡ each_once texts.now) }
{
    let places = Places::of(alloc, texts_of::<ByName, Text>(alloc, texts.as_slice())?)?;
    let mut made = Texts::new(alloc);
    for (at, text) in texts.as_slice().iter().enumerate() {
        if stands_first(&places, at, text) {
            made.push(text.copy(alloc)?)?;
        }
    }
    Ok(made)
}

// Whether a place is the first that has its text.
fn stands_first(places: &Places, at: usize, text: &Text) -> bool
    ensures { result ≡ is_place at (place_of text.now places.now) }
{
    match places.place(text.as_str()) {
        Some(first) => first == at,
        None => false,
    }
}
