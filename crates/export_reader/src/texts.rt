ghost use Rattle.std.specs.Prelude.{◌≡◌, Some, None, IfOk};
ghost use Rattle.export_model.specs.Sound.{IsConsistent};
ghost use Rattle.export_names.specs.Lists.{lists_of};
ghost use Rattle.export_container.specs.Container.{container_of};
ghost use Rattle.export_reader.specs.Container.{loaded_of};
ghost use Rattle.export_reader.specs.FirstBroken.{text_rules, part_rules, Judges};
ghost use Rattle.export_reader.specs.Rules as rules;

use crate::loading::Loaded;
use crate::paths::in_version;
use crate::top::ExportEnd;
use export_checks::{
    fields_form, info_form, not_built, permissions_form, section_missing, section_repeated,
    table_value, text_before,
};
use export_entries::WrittenEntries;
use export_model::Container;
use export_names::Known;
use export_templates::TemplateReadings;
use gtm_base::{OutOfMemory, Text};
use std::alloc::Global;

/// What is loaded of entries with their container, or the first of the rules from 19 on that the
/// texts of their templates break.
#[tactic(auto, unfolding(crate::specs::FirstBroken::text_rules))]
pub fn judge_texts(
    alloc: Global,
    known: &Known,
    readings: &TemplateReadings,
    written: &WrittenEntries,
    container: Container,
) -> Result<Loaded, ExportEnd>
    requires known { known.now ≡ lists_of written.now }
    requires made { container ≡ container_of readings.now written.now }
    requires consistent { IsConsistent container }
    ensures judged { Judges result (text_rules readings.now written.now)
        (Some (loaded_of readings.now written.now)) }
    ensures consistent { IfOk result (λ loaded. IsConsistent loaded.container) }
{
    if let Some(path) = repeated_path(alloc, readings)? {
        return Err(ExportEnd::Refused { rule: 19, path });
    }
    if let Some(path) = missing_path(alloc, readings)? {
        return Err(ExportEnd::Refused { rule: 20, path });
    }
    if let Some(path) = before_path(alloc, readings)? {
        return Err(ExportEnd::Refused { rule: 21, path });
    }
    judge_parts(alloc, known, readings, written, container)
}

// The same from rule 22 on.
#[tactic(auto, unfolding(crate::specs::FirstBroken::part_rules))]
fn judge_parts(
    alloc: Global,
    known: &Known,
    readings: &TemplateReadings,
    written: &WrittenEntries,
    container: Container,
) -> Result<Loaded, ExportEnd>
    requires known { known.now ≡ lists_of written.now }
    requires made { container ≡ container_of readings.now written.now }
    requires consistent { IsConsistent container }
    ensures judged { Judges result (part_rules readings.now written.now)
        (Some (loaded_of readings.now written.now)) }
    ensures consistent { IfOk result (λ loaded. IsConsistent loaded.container) }
{
    if let Some(path) = info_path(alloc, readings)? {
        return Err(ExportEnd::Refused { rule: 22, path });
    }
    if let Some(path) = fields_path(alloc, readings)? {
        return Err(ExportEnd::Refused { rule: 23, path });
    }
    if let Some(path) = table_path(alloc, known, readings, written)? {
        return Err(ExportEnd::Refused { rule: 24, path });
    }
    if let Some(path) = permissions_path(alloc, readings)? {
        return Err(ExportEnd::Refused { rule: 25, path });
    }
    if let Some(path) = entry_not_built(alloc, written)? {
        return Err(ExportEnd::Refused { rule: 29, path });
    }
    Ok(Loaded { container })
}

// The path of the first template in which a heading stands twice.
#[tactic(auto, unfolding(crate::specs::Rules::section_repeated))]
fn repeated_path(alloc: Global, readings: &TemplateReadings) -> Result<Option<Text>, OutOfMemory>
    ensures { IfOk result (λ path. path ≡ rules.section_repeated readings.now) }
{
    let path = section_repeated(alloc, readings)?;
    in_version(alloc, &path)
}

// The path of the first template without INFO or without a script for web containers.
#[tactic(auto, unfolding(crate::specs::Rules::section_missing))]
fn missing_path(alloc: Global, readings: &TemplateReadings) -> Result<Option<Text>, OutOfMemory>
    ensures { IfOk result (λ path. path ≡ rules.section_missing readings.now) }
{
    let path = section_missing(alloc, readings)?;
    in_version(alloc, &path)
}

// The path of the first template with text before its first heading.
#[tactic(auto, unfolding(crate::specs::Rules::text_before))]
fn before_path(alloc: Global, readings: &TemplateReadings) -> Result<Option<Text>, OutOfMemory>
    ensures { IfOk result (λ path. path ≡ rules.text_before readings.now) }
{
    let path = text_before(alloc, readings)?;
    in_version(alloc, &path)
}

// The path of the first template whose INFO does not say what it is.
#[tactic(auto, unfolding(crate::specs::Rules::info_form))]
fn info_path(alloc: Global, readings: &TemplateReadings) -> Result<Option<Text>, OutOfMemory>
    ensures { IfOk result (λ path. path ≡ rules.info_form readings.now) }
{
    let path = info_form(alloc, readings)?;
    in_version(alloc, &path)
}

// The path of the first template whose parameters have not the form of fields.
#[tactic(auto, unfolding(crate::specs::Rules::fields_form))]
fn fields_path(alloc: Global, readings: &TemplateReadings) -> Result<Option<Text>, OutOfMemory>
    ensures { IfOk result (λ path. path ≡ rules.fields_form readings.now) }
{
    let path = fields_form(alloc, readings)?;
    in_version(alloc, &path)
}

// The path of the first template whose permissions have not the form of them.
#[tactic(auto, unfolding(crate::specs::Rules::permissions_form))]
fn permissions_path(alloc: Global, readings: &TemplateReadings) -> Result<Option<Text>, OutOfMemory>
    ensures { IfOk result (λ path. path ≡ rules.permissions_form readings.now) }
{
    let path = permissions_form(alloc, readings)?;
    in_version(alloc, &path)
}

// The path of the first parameter that is given for a table and is none.
#[tactic(auto, unfolding(crate::specs::Rules::table_value))]
fn table_path(
    alloc: Global,
    known: &Known,
    readings: &TemplateReadings,
    written: &WrittenEntries,
) -> Result<Option<Text>, OutOfMemory>
    requires { known.now ≡ lists_of written.now }
    ensures { IfOk result (λ path. path ≡ rules.table_value readings.now written.now) }
{
    let path = table_value(alloc, known, readings, written)?;
    in_version(alloc, &path)
}

// The path of the first entry that is not run yet.
#[tactic(auto, unfolding(crate::specs::Rules::not_built))]
fn entry_not_built(alloc: Global, written: &WrittenEntries) -> Result<Option<Text>, OutOfMemory>
    ensures { IfOk result (λ path. path ≡ rules.not_built written.now) }
{
    let path = not_built(alloc, written)?;
    in_version(alloc, &path)
}
