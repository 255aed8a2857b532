ghost use Rattle.std.specs.Prelude.{◌≡◌, map, IfOk, codes};
ghost use Rattle.export_checks.specs.Repeats as repeats;
ghost use Rattle.export_checks.specs.Repeats.{repeated};

use crate::paths::entry_path;
use export_entries::{
    WrittenEntries, WrittenTag, WrittenTemplate, WrittenTrigger, WrittenVariable,
};
use export_names::{ById, ByName, FoundBy, texts_of};
use gtm_base::{ListOf, OutOfMemory, Text};
use std::alloc::Global;
use text_places::first_repeat;

/// The path, from the container version, of the first entry that has the id of an earlier one of
/// its list. `None` where the ids of each list differ. Fails where memory is wanting.
#[tactic(auto, unfolding(crate::specs::Repeats::duplicate_id))]
pub fn duplicate_id(alloc: Global, written: &WrittenEntries) -> Result<Option<Text>, OutOfMemory>
    ensures { IfOk result (λ found. found ≡ repeats.duplicate_id written.now) }
{
    let tag = repeated::<ById, WrittenTag>(alloc, "tag", &written.tags)?;
    if tag.is_some() {
        return Ok(tag);
    }
    let trigger = repeated::<ById, WrittenTrigger>(alloc, "trigger", &written.triggers)?;
    if trigger.is_some() {
        return Ok(trigger);
    }
    let variable = repeated::<ById, WrittenVariable>(alloc, "variable", &written.variables)?;
    if variable.is_some() {
        return Ok(variable);
    }
    let template = repeated::<ById, WrittenTemplate>(alloc, "customTemplate", &written.templates)?;
    Ok(template)
}

/// The path, from the container version, of the first tag that has the name of an earlier tag, else
/// of the first variable that has the name of an earlier variable. `None` where they differ. Fails
/// where memory is wanting.
#[tactic(auto, unfolding(crate::specs::Repeats::duplicate_name))]
pub fn duplicate_name(alloc: Global, written: &WrittenEntries) -> Result<Option<Text>, OutOfMemory>
    ensures { IfOk result (λ found. found ≡ repeats.duplicate_name written.now) }
{
    let tag = repeated::<ByName, WrittenTag>(alloc, "tag", &written.tags)?;
    if tag.is_some() {
        return Ok(tag);
    }
    let variable = repeated::<ByName, WrittenVariable>(alloc, "variable", &written.variables)?;
    Ok(variable)
}

// The path of the first entry of a list that is found by the text of an earlier one.
fn repeated<By, T: FoundBy<By>>(
    alloc: Global,
    key: &str,
    entries: &ListOf<T>,
) -> Result<Option<Text>, OutOfMemory>
    ensures { IfOk result (λ found. found ≡ repeated key.now (map T.text entries.now)) }
{
    let texts = texts_of::<By, T>(alloc, entries.as_slice())?;
    let found = first_repeat(alloc, texts.as_slice())?;
    entry_path(alloc, key, found)
}
