ghost use Rattle.std.specs.Prelude.{◌≡◌, map, IfOk};
ghost use Rattle.template_fields.specs.Fields.{distinct_fields, is_place, names_of};

use export_model::{FieldName, FieldNames};
use gtm_base::{OutOfMemory, Text};
use std::alloc::Global;
use text_places::Places;

// Of two fields with one name the first.
pub(crate) fn distinct_fields(
    alloc: Global,
    fields: &[FieldName],
) -> Result<FieldNames, OutOfMemory>
    ensures { IfOk result (λ made. made ≡ distinct_fields fields.now) }
{
    let names = names_of(alloc, fields)?;
    let places = Places::of(alloc, names)?;
    let mut made = FieldNames::new(alloc);
    for (at, field) in fields.iter().enumerate() {
        if is_place(at, places.place(field.name.as_str())) {
            made.push(FieldName {
                name: field.name.copy(alloc)?,
                table: field.table,
            })?;
        }
    }
    Ok(made)
}

pub(crate) fn names_of(alloc: Global, fields: &[FieldName]) -> Result<Vec<&Text>, OutOfMemory>
    ensures { IfOk result (λ names. map (λ n. n.now) names.items ≡ names_of fields.now) }
{
    let mut names = Vec::with_capacity(alloc, fields.len())?;
    for field in fields {
        names.push(&field.name)?;
    }
    Ok(names)
}

pub(crate) fn is_place(at: usize, place: Option<usize>) -> bool
    ensures { result ≡ is_place at place }
{
    match place {
        Some(place) => place == at,
        None => false,
    }
}
