ghost use Rattle.std.specs.Prelude.{◌≡◌, ◌&&◌, not, codes, IfOk};
ghost use Rattle.export_names.specs.Lists.{lists_of};
ghost use Rattle.export_names.specs.Types.{template_at};
ghost use Rattle.export_templates.specs.Readings.{type_of};
ghost use Rattle.export_checks.specs.FirstFault.{list_fault};
ghost use Rattle.export_checks.specs.UnknownTypes.{unknown_template, type_fault, is_custom};
ghost use Rattle.export_checks.specs.UnknownTypes.{fits, may_fit, is_answered};
ghost use Rattle.export_checks.specs.declared.templates.TemplateUse.TheVariants.{Tag, Variable};

use crate::paths::{item_path, member_path};
use export_entries::{WrittenEntries, WrittenTags, WrittenVariables};
use export_names::{Known, TemplateTypes};
use export_templates::{TemplateReading, TemplateReadings};
use gtm_base::{OutOfMemory, Text};
use std::alloc::Global;

/// What a template is used as.
#[derive(Clone, Copy, Debug, PartialEq, Eq)]
pub enum TemplateUse {
    Tag,
    Variable,
}

/// The path, from the container version, of the first type that begins with `cvt_`, as those of
/// custom templates do, and that no template answers: none has it, or the first one that has it
/// says in its INFO that it is one of variables where a tag uses it, or one of tags where a
/// variable does. Types of tags come before those of variables. `None` where each is answered.
/// Fails where memory is wanting.
pub fn unknown_template(
    alloc: Global,
    known: &Known,
    readings: &TemplateReadings,
    written: &WrittenEntries,
) -> Result<Option<Text>, OutOfMemory>
    requires { known.now ≡ lists_of written.now }
    ensures { IfOk result (λ found. found ≡ unknown_template readings.now written.now) }
{
    let tag = in_tags(alloc, &known.types, readings, &written.tags)?;
    if tag.is_some() {
        return Ok(tag);
    }
    in_variables(alloc, &known.types, readings, &written.variables)
}

// The first unknown type of a tag.
fn in_tags(
    alloc: Global,
    types: &TemplateTypes,
    readings: &TemplateReadings,
    tags: &WrittenTags,
) -> Result<Option<Text>, OutOfMemory>
    ensures { IfOk result
        (λ found. found
        ≡ list_fault (codes "tag") (λ tag. type_fault types.now readings.now Tag tag.kind)
        tags.now) }
{
    for (at, tag) in tags.as_slice().iter().enumerate() {
        if is_unknown(types, readings, TemplateUse::Tag, &tag.kind) {
            let path = member_path(alloc, "type")?;
            let whole = item_path(alloc, "tag", at, &path)?;
            return Ok(Some(whole));
        }
    }
    Ok(None)
}

// The first unknown type of a variable.
fn in_variables(
    alloc: Global,
    types: &TemplateTypes,
    readings: &TemplateReadings,
    variables: &WrittenVariables,
) -> Result<Option<Text>, OutOfMemory>
    ensures { IfOk result
        (λ found. found
        ≡ list_fault (codes "variable")
        (λ variable. type_fault types.now readings.now Variable variable.kind) variables.now) }
{
    for (at, variable) in variables.as_slice().iter().enumerate() {
        if is_unknown(types, readings, TemplateUse::Variable, &variable.kind) {
            let path = member_path(alloc, "type")?;
            let whole = item_path(alloc, "variable", at, &path)?;
            return Ok(Some(whole));
        }
    }
    Ok(None)
}

// Whether a type is that of a custom template, and no template answers it.
fn is_unknown(
    types: &TemplateTypes,
    readings: &TemplateReadings,
    used: TemplateUse,
    kind: &Text,
) -> bool
    ensures { result
        ≡ (is_custom kind.now
        && not (is_answered readings.now used (template_at types.now kind.now))) }
{
    is_custom(kind) && !is_answered(readings, used, types.template(kind))
}

// Whether a template is there, and its text does not say that it is one for the other use.
fn is_answered(readings: &TemplateReadings, used: TemplateUse, at: Option<u32>) -> bool
    ensures { result ≡ is_answered readings.now used at }
{
    match at {
        Some(at) => match readings.get(at as usize) {
            Some(reading) => may_fit(used, reading),
            None => true,
        },
        None => false,
    }
}

// Whether a template's text does not say that it is one for the other use.
fn may_fit(used: TemplateUse, reading: &TemplateReading) -> bool
    ensures { result ≡ may_fit used (type_of reading.now) }
{
    match reading.is_tag() {
        Some(is_tag) => fits(used, is_tag),
        None => true,
    }
}

// Whether a template that is one of tags, or else of variables, is one for this use.
fn fits(used: TemplateUse, is_tag: bool) -> bool
    ensures { result ≡ fits used is_tag }
{
    match used {
        TemplateUse::Tag => is_tag,
        TemplateUse::Variable => !is_tag,
    }
}

// Whether a type is that of a custom template.
fn is_custom(kind: &Text) -> bool
    ensures { result ≡ is_custom kind.now }
{
    kind.as_str().starts_with("cvt_")
}
