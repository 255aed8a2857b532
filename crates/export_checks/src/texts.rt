ghost use Rattle.std.specs.Prelude.{◌≡◌, Option, IfOk};
ghost use Rattle.export_templates.specs.declared.readings.TemplateReading.{TemplateReading};
ghost use Rattle.export_checks.specs.declared.texts.TextPlace.{TextPlace};
ghost use Rattle.export_checks.specs.TemplateTexts.{place_path, readings_fault, without, repeat_place};
ghost use Rattle.export_checks.specs.TemplateTexts.{lack_place, front_place, info_place, fields_place};
ghost use Rattle.export_checks.specs.TemplateTexts.{permissions_place};

use crate::paths::item_path;
use export_fields::key_before;
use export_templates::{SectionFault, TemplateReading, TemplateReadings};
use gtm_base::{OutOfMemory, Text};
use std::alloc::Global;

/// Where a template's text breaks a rule: as a whole, or at a byte of it.
#[derive(Clone, Copy, Debug, PartialEq, Eq)]
pub enum TextPlace {
    Whole,
    Byte(usize),
}

// A rule of a template's own text.
trait TextRule {
    ghost broken: { TemplateReading → Option TextPlace };

    // Where a reading breaks it.
    fn broken(reading: &TemplateReading) -> Option<TextPlace>
        ensures { result ≡ broken reading.now };
}

/// The path, from the container version, of the first template in which a heading stands twice,
/// with `@` and the byte at which the second one begins. `None` where there is none. Fails where
/// memory is wanting.
pub fn section_repeated(
    alloc: Global,
    readings: &TemplateReadings,
) -> Result<Option<Text>, OutOfMemory>
    ensures { IfOk result (λ found. found ≡ readings_fault repeat_place readings.now) }
{
    first_broken::<RepeatedHeading>(alloc, readings)
}

/// The same of the first template that has no INFO or no script for web containers, while no heading
/// stands twice in it.
pub fn section_missing(
    alloc: Global,
    readings: &TemplateReadings,
) -> Result<Option<Text>, OutOfMemory>
    ensures { IfOk result (λ found. found ≡ readings_fault lack_place readings.now) }
{
    first_broken::<MissingSection>(alloc, readings)
}

/// The same of the first template with text other than white space before its first heading, with
/// `@` and the byte of that text, while its headings are there and none stands twice.
pub fn text_before(alloc: Global, readings: &TemplateReadings) -> Result<Option<Text>, OutOfMemory>
    ensures { IfOk result (λ found. found ≡ readings_fault front_place readings.now) }
{
    first_broken::<TextBefore>(alloc, readings)
}

/// The same of the first template with sections whose INFO is no object of whole data with the type
/// TAG or MACRO.
pub fn info_form(alloc: Global, readings: &TemplateReadings) -> Result<Option<Text>, OutOfMemory>
    ensures { IfOk result (λ found. found ≡ readings_fault info_place readings.now) }
{
    first_broken::<InfoForm>(alloc, readings)
}

/// The same of the first template with sections whose parameters have not the form of a list of
/// fields of whole data.
pub fn fields_form(alloc: Global, readings: &TemplateReadings) -> Result<Option<Text>, OutOfMemory>
    ensures { IfOk result (λ found. found ≡ readings_fault fields_place readings.now) }
{
    first_broken::<FieldsForm>(alloc, readings)
}

/// The same of the first template with sections whose permissions have not the form of a list of
/// permissions of whole data.
pub fn permissions_form(
    alloc: Global,
    readings: &TemplateReadings,
) -> Result<Option<Text>, OutOfMemory>
    ensures { IfOk result (λ found. found ≡ readings_fault permissions_place readings.now) }
{
    first_broken::<PermissionsForm>(alloc, readings)
}

// The path of the first template whose reading breaks a rule.
fn first_broken<R: TextRule>(
    alloc: Global,
    readings: &TemplateReadings,
) -> Result<Option<Text>, OutOfMemory>
    ensures { IfOk result (λ found. found ≡ readings_fault R.broken readings.now) }
{
    for (at, reading) in readings.as_slice().iter().enumerate() {
        if let Some(place) = R::broken(reading) {
            let path = place_path(alloc, place)?;
            let whole = item_path(alloc, "customTemplate", at, &path)?;
            return Ok(Some(whole));
        }
    }
    Ok(None)
}

// The path of a template's text, and behind `@` the byte in it.
fn place_path(alloc: Global, place: TextPlace) -> Result<Text, OutOfMemory>
    ensures { IfOk result (λ path. path ≡ place_path place) }
{
    let mut behind = Text::new(alloc);
    if let TextPlace::Byte(at) = place {
        behind.push('@')?;
        behind.push_unsigned(at as u64)?;
    }
    key_before(alloc, "templateData", &behind)
}

// The whole text, where a part was not found.
fn without<T>(part: &Option<T>) -> Option<TextPlace>
    ensures { result ≡ without part.now }
{
    match part {
        Some(_) => None,
        None => Some(TextPlace::Whole),
    }
}

struct RepeatedHeading;

impl TextRule for RepeatedHeading {
    ghost broken = { repeat_place };

    fn broken(reading: &TemplateReading) -> Option<TextPlace> {
        match reading {
            TemplateReading::Uncut(SectionFault::Repeated { place }) => {
                Some(TextPlace::Byte(*place))
            },
            TemplateReading::Uncut(SectionFault::Missing) => None,
            TemplateReading::Uncut(SectionFault::Before { .. }) => None,
            TemplateReading::Parts(_) => None,
        }
    }
}

struct MissingSection;

impl TextRule for MissingSection {
    ghost broken = { lack_place };

    fn broken(reading: &TemplateReading) -> Option<TextPlace> {
        match reading {
            TemplateReading::Uncut(SectionFault::Repeated { .. }) => None,
            TemplateReading::Uncut(SectionFault::Missing) => Some(TextPlace::Whole),
            TemplateReading::Uncut(SectionFault::Before { .. }) => None,
            TemplateReading::Parts(_) => None,
        }
    }
}

struct TextBefore;

impl TextRule for TextBefore {
    ghost broken = { front_place };

    fn broken(reading: &TemplateReading) -> Option<TextPlace> {
        match reading {
            TemplateReading::Uncut(SectionFault::Repeated { .. }) => None,
            TemplateReading::Uncut(SectionFault::Missing) => None,
            TemplateReading::Uncut(SectionFault::Before { place }) => Some(TextPlace::Byte(*place)),
            TemplateReading::Parts(_) => None,
        }
    }
}

struct InfoForm;

impl TextRule for InfoForm {
    ghost broken = { info_place };

    fn broken(reading: &TemplateReading) -> Option<TextPlace> {
        match reading {
            TemplateReading::Uncut(_) => None,
            TemplateReading::Parts(parts) => without(&parts.is_tag),
        }
    }
}

struct FieldsForm;

impl TextRule for FieldsForm {
    ghost broken = { fields_place };

    fn broken(reading: &TemplateReading) -> Option<TextPlace> {
        match reading {
            TemplateReading::Uncut(_) => None,
            TemplateReading::Parts(parts) => without(&parts.fields),
        }
    }
}

struct PermissionsForm;

impl TextRule for PermissionsForm {
    ghost broken = { permissions_place };

    fn broken(reading: &TemplateReading) -> Option<TextPlace> {
        match reading {
            TemplateReading::Uncut(_) => None,
            TemplateReading::Parts(parts) => without(&parts.permissions),
        }
    }
}
