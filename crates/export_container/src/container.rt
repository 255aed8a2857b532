ghost use Rattle.std.specs.Prelude.{◌≡◌, IfOk};
ghost use Rattle.export_model.specs.Small.{HasSmallLists};
ghost use Rattle.export_model.specs.Sound.{InRange};
ghost use Rattle.export_container.specs.Container.{public_id_of, container_by, container_of};
ghost use Rattle.export_container.specs.Templates.{AreRead};
ghost use Rattle.export_names.specs.Lists.{lists_of};

use crate::built_ins::built_ins_of;
use crate::references::references_of;
use crate::tags::tags_of;
use crate::templates::templates_of;
use crate::triggers::triggers_of;
use crate::variables::variables_of;
use export_entries::{WrittenContainer, WrittenEntries};
use export_model::{Container, has_small_lists};
use export_names::Known;
use export_templates::TemplateReadings;
use gtm_base::{OutOfMemory, Text};
use std::alloc::Global;

/// The container that the entries of an export stand for, in which each name is a number. A name
/// that nothing has stands for nothing. Of a template it has what its reading says.
///
/// Fails where memory is wanting, and where a list of it or within an entry has 2^32 items or more:
/// no export of at most 8 MiB has so many.
pub fn container_of(
    alloc: Global,
    known: &Known,
    readings: &TemplateReadings,
    written: &WrittenEntries,
) -> Result<Container, OutOfMemory>
    requires known { known.now ≡ lists_of written.now }
    requires read { AreRead readings.now written.now.templates }
    ensures made { IfOk result (λ made. made ≡ container_of readings.now written.now) }
    ensures small { IfOk result HasSmallLists }
    ensures in_range { IfOk result InRange }
{
    let container = container_by(alloc, known, readings, written)?;
    if !has_small_lists(&container) {
        return Err(OutOfMemory);
    }
    Ok(container)
}

// The container of entries whose names become numbers by these lists.
fn container_by(
    alloc: Global,
    known: &Known,
    readings: &TemplateReadings,
    written: &WrittenEntries,
) -> Result<Container, OutOfMemory>
    requires { AreRead readings.now written.now.templates }
    ensures { IfOk result (λ made. made ≡ container_by known.now readings.now written.now) }
{
    let public_id = public_id_of(alloc, &written.container)?;
    let version_id = written.version_id.copy(alloc)?;
    let tags = tags_of(alloc, known, &written.tags)?;
    let triggers = triggers_of(alloc, known, &written.triggers)?;
    let variables = variables_of(alloc, known, &written.variables)?;
    let built_ins = built_ins_of(alloc, &written.built_ins)?;
    let templates = templates_of(alloc, readings, &written.templates)?;
    let references = references_of(alloc, &known.triggers, &written.tags, &written.triggers)?;
    Ok(Container {
        public_id,
        version_id,
        tags,
        triggers,
        variables,
        built_ins,
        templates,
        references,
    })
}

// The public name of a container, empty where the export says nothing of it.
fn public_id_of(alloc: Global, container: &Option<WrittenContainer>) -> Result<Text, OutOfMemory>
    ensures { IfOk result (λ made. made ≡ public_id_of container.now) }
{
    match container {
        Some(container) => container.public_id.copy(alloc),
        None => Ok(Text::new(alloc)),
    }
}
