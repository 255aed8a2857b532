ghost use Rattle.std.specs.Prelude.{◌≡◌, IfOk};
ghost use Rattle.export_container.specs.Templates.{AreRead, template_of, templates_of};

use export_entries::{WrittenTemplate, WrittenTemplates};
use export_model::{FieldName, FieldNames, Template, Templates};
use export_names::names_of;
use export_templates::{TemplateReading, TemplateReadings};
use gtm_base::{OutOfMemory, Text, Texts};
use std::alloc::Global;

/// The templates that written ones stand for, in order, each by its own reading. Fails where memory
/// is wanting.
pub fn templates_of(
    alloc: Global,
    readings: &TemplateReadings,
    written: &WrittenTemplates,
) -> Result<Templates, OutOfMemory>
    requires { AreRead readings.now written.now }
    ensures { IfOk result (λ made. made ≡ templates_of readings.now written.now) }
{
    let mut made = Templates::new(alloc);
    let readings = readings.as_slice();
    for (at, template) in written.as_slice().iter().enumerate() {
        made.push(template_of(alloc, &readings[at], template)?)?;
    }
    Ok(made)
}

// The template that a written one with this reading stands for.
#[tactic(auto, unfolding(crate::specs::Templates::template_of))]
fn template_of(
    alloc: Global,
    reading: &TemplateReading,
    written: &WrittenTemplate,
) -> Result<Template, OutOfMemory>
    ensures { IfOk result (λ made. made ≡ template_of reading.now written.now) }
{
    let id = written.id.copy(alloc)?;
    let name = written.name.copy(alloc)?;
    let names = names_of(alloc, written)?;
    let is_tag = reading.is_tag().unwrap_or(false);
    let fields = copied_fields(alloc, reading.fields())?;
    let warnings = copied_texts(alloc, reading.warnings())?;
    Ok(Template {
        id,
        name,
        names,
        is_tag,
        fields,
        warnings,
    })
}

// The same fields again.
fn copied_fields(alloc: Global, fields: &[FieldName]) -> Result<FieldNames, OutOfMemory>
    ensures { IfOk result (λ made. made ≡ fields.now) }
{
    let mut made = FieldNames::new(alloc);
    for field in fields {
        made.push(FieldName {
            name: field.name.copy(alloc)?,
            table: field.table,
        })?;
    }
    Ok(made)
}

// The same texts again.
fn copied_texts(alloc: Global, texts: &[Text]) -> Result<Texts, OutOfMemory>
    ensures { IfOk result (λ made. made ≡ texts.now) }
{
    let mut made = Texts::new(alloc);
    for text in texts {
        made.push(text.copy(alloc)?)?;
    }
    Ok(made)
}
