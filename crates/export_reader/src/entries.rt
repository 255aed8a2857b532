ghost use Rattle.std.specs.Prelude.{◌≡◌, Some, None, IfOk, codes};
ghost use Rattle.export_model.specs.Sound.{Sound, IsConsistent};
ghost use Rattle.export_names.specs.Lists.{lists_of};
ghost use Rattle.export_container.specs.Container.{container_of};
ghost use Rattle.export_container.specs.Templates.{AreRead};
ghost use Rattle.export_reader.specs.Container.{loaded_of};
ghost use Rattle.export_reader.specs.FirstBroken.{entries_rules, reference_rules, container_rules};
ghost use Rattle.export_reader.specs.FirstBroken.{Judges};
ghost use Rattle.export_reader.specs.Rules as rules;

use crate::cycles::{group_cycle, variable_cycle};
use crate::loading::Loaded;
use crate::paths::in_version;
use crate::texts::judge_texts;
use crate::top::ExportEnd;
use export_checks::{
    duplicate_id, duplicate_name, priority_text, unknown_sequence_tag, unknown_template,
    unknown_trigger,
};
use export_container::container_of;
use export_entries::WrittenEntries;
use export_names::{Known, known_of, type_texts};
use export_templates::TemplateReadings;
use gtm_base::{OutOfMemory, Text};
use std::alloc::Global;

/// What is loaded of entries whose templates have these readings, or the first of the rules from 9
/// on that they break.
#[tactic(auto, unfolding(crate::specs::FirstBroken::entries_rules))]
pub fn judge_entries(
    alloc: Global,
    readings: &TemplateReadings,
    written: &WrittenEntries,
) -> Result<Loaded, ExportEnd>
    requires { AreRead readings.now written.now.templates }
    ensures judged { Judges result (entries_rules readings.now written.now)
        (Some (loaded_of readings.now written.now)) }
    ensures sound { IfOk result (λ loaded. Sound loaded.container) }
{
    if let Some(path) = id_path(alloc, written)? {
        return Err(ExportEnd::Refused { rule: 9, path });
    }
    if let Some(path) = name_path(alloc, written)? {
        return Err(ExportEnd::Refused { rule: 10, path });
    }
    let types = type_texts(alloc, &written.templates)?;
    let known = known_of(alloc, &types, written)?;
    judge_references(alloc, &known, readings, written)
}

// What is loaded of entries, or the first of the rules from 11 on that they break.
#[tactic(auto, unfolding(crate::specs::FirstBroken::reference_rules))]
fn judge_references(
    alloc: Global,
    known: &Known,
    readings: &TemplateReadings,
    written: &WrittenEntries,
) -> Result<Loaded, ExportEnd>
    requires known { known.now ≡ lists_of written.now }
    requires read { AreRead readings.now written.now.templates }
    ensures judged { Judges result (reference_rules readings.now written.now)
        (Some (loaded_of readings.now written.now)) }
    ensures sound { IfOk result (λ loaded. Sound loaded.container) }
{
    if let Some(path) = trigger_path(alloc, known, written)? {
        return Err(ExportEnd::Refused { rule: 11, path });
    }
    if let Some(path) = sequence_tag_path(alloc, known, written)? {
        return Err(ExportEnd::Refused { rule: 14, path });
    }
    if let Some(path) = template_path(alloc, known, readings, written)? {
        return Err(ExportEnd::Refused { rule: 15, path });
    }
    judge_container(alloc, known, readings, written)
}

// What is loaded of entries, or the first of the rules from 16 on that their container breaks.
#[tactic(auto, unfolding(crate::specs::FirstBroken::container_rules))]
fn judge_container(
    alloc: Global,
    known: &Known,
    readings: &TemplateReadings,
    written: &WrittenEntries,
) -> Result<Loaded, ExportEnd>
    requires known { known.now ≡ lists_of written.now }
    requires read { AreRead readings.now written.now.templates }
    ensures judged { Judges result
        (container_rules readings.now written.now (container_of readings.now written.now))
        (Some (loaded_of readings.now written.now)) }
    ensures consistent { IfOk result (λ loaded. IsConsistent loaded.container) }
{
    let container = container_of(alloc, known, readings, written)?;
    if let Some(path) = variable_cycle(alloc, &container)? {
        return Err(ExportEnd::Refused { rule: 16, path });
    }
    if let Some(path) = group_cycle(alloc, &container)? {
        return Err(ExportEnd::Refused { rule: 17, path });
    }
    if let Some(path) = priority_path(alloc, written)? {
        return Err(ExportEnd::Refused { rule: 18, path });
    }
    judge_texts(alloc, known, readings, written, container)
}

// The path of the first id that stands twice.
#[tactic(auto, unfolding(crate::specs::Rules::duplicate_id))]
fn id_path(alloc: Global, written: &WrittenEntries) -> Result<Option<Text>, OutOfMemory>
    ensures { IfOk result (λ path. path ≡ rules.duplicate_id written.now) }
{
    let path = duplicate_id(alloc, written)?;
    in_version(alloc, &path)
}

// The path of the first name that stands twice.
#[tactic(auto, unfolding(crate::specs::Rules::duplicate_name))]
fn name_path(alloc: Global, written: &WrittenEntries) -> Result<Option<Text>, OutOfMemory>
    ensures { IfOk result (λ path. path ≡ rules.duplicate_name written.now) }
{
    let path = duplicate_name(alloc, written)?;
    in_version(alloc, &path)
}

// The path of the first number of a trigger that stands for none.
#[tactic(auto, unfolding(crate::specs::Rules::unknown_trigger))]
fn trigger_path(
    alloc: Global,
    known: &Known,
    written: &WrittenEntries,
) -> Result<Option<Text>, OutOfMemory>
    requires { known.now ≡ lists_of written.now }
    ensures { IfOk result (λ path. path ≡ rules.unknown_trigger written.now) }
{
    let path = unknown_trigger(alloc, known, written)?;
    in_version(alloc, &path)
}

// The path of the first name of a setup or teardown tag that no tag has.
#[tactic(auto, unfolding(crate::specs::Rules::unknown_sequence_tag))]
fn sequence_tag_path(
    alloc: Global,
    known: &Known,
    written: &WrittenEntries,
) -> Result<Option<Text>, OutOfMemory>
    requires { known.now ≡ lists_of written.now }
    ensures { IfOk result (λ path. path ≡ rules.unknown_sequence_tag written.now) }
{
    let path = unknown_sequence_tag(alloc, known, written)?;
    in_version(alloc, &path)
}

// The path of the first type of a custom template that no template answers.
#[tactic(auto, unfolding(crate::specs::Rules::unknown_template))]
fn template_path(
    alloc: Global,
    known: &Known,
    readings: &TemplateReadings,
    written: &WrittenEntries,
) -> Result<Option<Text>, OutOfMemory>
    requires { known.now ≡ lists_of written.now }
    ensures { IfOk result (λ path. path ≡ rules.unknown_template readings.now written.now) }
{
    let path = unknown_template(alloc, known, readings, written)?;
    in_version(alloc, &path)
}

// The path of the first priority that is no whole number.
#[tactic(auto, unfolding(crate::specs::Rules::priority_text))]
fn priority_path(alloc: Global, written: &WrittenEntries) -> Result<Option<Text>, OutOfMemory>
    ensures { IfOk result (λ path. path ≡ rules.priority_text written.now) }
{
    let path = priority_text(alloc, written)?;
    in_version(alloc, &path)
}
