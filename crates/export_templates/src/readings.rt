ghost use Rattle.std.specs.Prelude.{◌≡◌, map, IfOk};
ghost use Rattle.std.specs.Str.{chars};
ghost use Rattle.export_templates.specs.Readings.{read_text, reading_of, readings_of, type_of};
ghost use Rattle.export_templates.specs.Readings.{known_fields, warnings_of};

use crate::parts::{TemplateParts, parts_of};
use export_entries::WrittenTemplates;
use export_model::FieldName;
use gtm_base::{ListOf, OutOfMemory, Text};
use std::alloc::Global;
use template_sections::{SectionEnd, cut};

/// Why a template's text has no sections: the first of these that fits.
#[derive(Clone, Copy, Debug, PartialEq, Eq)]
pub enum SectionFault {
    /// The heading that begins at this byte stood before.
    Repeated { place: usize },
    /// It has no INFO, or no script for web containers.
    Missing,
    /// A character that is no white space stands before the first heading, at this byte.
    Before { place: usize },
}

/// What the text of a custom template was read as.
#[derive(Debug, Drop)]
pub enum TemplateReading {
    /// It has no sections.
    Uncut(SectionFault),
    /// It has sections, and this is what stands in them.
    Parts(TemplateParts),
}

impl TemplateReading {
    /// Whether it is a template of tags, or one of variables. `None` where its text does not say.
    pub fn is_tag(&self) -> Option<bool>
        ensures { result ≡ type_of self.now }
    {
        match self {
            TemplateReading::Uncut(_) => None,
            TemplateReading::Parts(parts) => parts.is_tag,
        }
    }

    /// Its fields: none where its text has not the form of them.
    pub fn fields(&self) -> &[FieldName]
        ensures { result.now ≡ known_fields self.now }
    {
        match self {
            TemplateReading::Uncut(_) => &[],
            TemplateReading::Parts(parts) => match &parts.fields {
                Some(fields) => fields.as_slice(),
                None => &[],
            },
        }
    }

    /// The texts of what of its permissions was not understood.
    pub fn warnings(&self) -> &[Text]
        ensures { result.now ≡ warnings_of self.now }
    {
        match self {
            TemplateReading::Uncut(_) => &[],
            TemplateReading::Parts(parts) => match &parts.permissions {
                Some(permissions) => permissions.warnings.as_slice(),
                None => &[],
            },
        }
    }
}

/// Readings, in the order of the templates.
pub type TemplateReadings = ListOf<TemplateReading>;

/// The readings of templates, in order, each of the template's own text. Fails where memory is
/// wanting.
pub fn read_templates(
    alloc: Global,
    written: &WrittenTemplates,
) -> Result<TemplateReadings, OutOfMemory>
    ensures { IfOk result (λ made. made ≡ readings_of written.now) }
{
    let mut made = TemplateReadings::new(alloc);
    for template in written.as_slice() {
        made.push(reading_of(alloc, &template.sections)?)?;
    }
    Ok(made)
}

// What a template's text is read as.
#[tactic(auto, unfolding(crate::specs::Readings::reading_of))]
fn reading_of(alloc: Global, text: &Text) -> Result<TemplateReading, OutOfMemory>
    ensures { IfOk result (λ made. made ≡ reading_of text.now) }
{
    read_text(alloc, text.as_str())
}

// The same of the text's bytes.
fn read_text(alloc: Global, text: &str) -> Result<TemplateReading, OutOfMemory>
    ensures { IfOk result (λ made. made ≡ read_text text.now) }
{
    match cut(alloc, text) {
        Ok(sections) => {
            let parts = parts_of(alloc, text.as_bytes(), &sections)?;
            Ok(TemplateReading::Parts(parts))
        },
        Err(SectionEnd::Repeated { place }) => {
            Ok(TemplateReading::Uncut(SectionFault::Repeated { place }))
        },
        Err(SectionEnd::Missing) => Ok(TemplateReading::Uncut(SectionFault::Missing)),
        Err(SectionEnd::Before { place }) => {
            Ok(TemplateReading::Uncut(SectionFault::Before { place }))
        },
        Err(SectionEnd::OutOfMemory) => Err(OutOfMemory),
    }
}
