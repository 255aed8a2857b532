ghost use Rattle.std.specs.Prelude.{◌≡◌, [], map, codes, IfOk};
ghost use Rattle.export_names.specs.Lists.{lists_of};
ghost use Rattle.export_checks.specs.FirstFault.{list_fault};
ghost use Rattle.export_checks.specs.TableValues.{table_value, tables_of, table_names, uses_fault};
ghost use Rattle.export_checks.specs.TableValues.{use_fault, params_fault, is_map_list, are_maps};
ghost use Rattle.export_checks.specs.TableValues.{is_map};

use crate::paths::item_path;
use export_entries::{WrittenEntries, WrittenTags, WrittenVariables};
use export_fields::{ParamKind, WrittenParam, WrittenParams};
use export_model::FieldName;
use export_names::{Known, TemplateTypes};
use export_templates::TemplateReadings;
use gtm_base::{ListOf, OutOfMemory, Text};
use std::alloc::Global;
use text_places::Places;

/// The path, from the container version, of the first parameter that a tag, or else a variable,
/// gives its template for a table, and that is no LIST of MAPs. `None` where each is one. Fails
/// where memory is wanting.
pub fn table_value(
    alloc: Global,
    known: &Known,
    readings: &TemplateReadings,
    written: &WrittenEntries,
) -> Result<Option<Text>, OutOfMemory>
    requires { known.now ≡ lists_of written.now }
    ensures { IfOk result (λ found. found ≡ table_value readings.now written.now) }
{
    let tables = tables_of(alloc, readings)?;
    let path = in_uses(alloc, &known.types, &tables, written)?;
    Ok(path)
}

// The names of the tables of each template.
fn tables_of(alloc: Global, readings: &TemplateReadings) -> Result<ListOf<Places<'_>>, OutOfMemory>
    ensures { IfOk result (λ made. made ≡ tables_of readings.now) }
{
    let mut made = ListOf::new(alloc);
    for reading in readings.as_slice() {
        let names = table_names(alloc, reading.fields())?;
        made.push(Places::of(alloc, names)?)?;
    }
    Ok(made)
}

// The names of the tables among fields.
fn table_names(alloc: Global, fields: &[FieldName]) -> Result<Vec<&Text>, OutOfMemory>
    ensures { IfOk result
        (λ names. map (λ name. name.now) names.items ≡ table_names fields.now) }
{
    let mut names = Vec::new(alloc);
    for field in fields {
        if field.table {
            names.push(&field.name)?;
        }
    }
    Ok(names)
}

// The first fault of a tag, or else of a variable.
fn in_uses(
    alloc: Global,
    types: &TemplateTypes,
    tables: &ListOf<Places<'_>>,
    written: &WrittenEntries,
) -> Result<Option<Text>, OutOfMemory>
    ensures { IfOk result (λ found. found ≡ uses_fault types.now tables.now written.now) }
{
    let tag = in_tags(alloc, types, tables, &written.tags)?;
    if tag.is_some() {
        return Ok(tag);
    }
    in_variables(alloc, types, tables, &written.variables)
}

// The first fault of a tag.
fn in_tags(
    alloc: Global,
    types: &TemplateTypes,
    tables: &ListOf<Places<'_>>,
    tags: &WrittenTags,
) -> Result<Option<Text>, OutOfMemory>
    ensures { IfOk result
        (λ found. found
        ≡ list_fault (codes "tag")
        (λ tag. use_fault types.now tables.now tag.kind tag.params) tags.now) }
{
    for (at, tag) in tags.as_slice().iter().enumerate() {
        if let Some(path) = in_use(alloc, types, tables, &tag.kind, &tag.params)? {
            let whole = item_path(alloc, "tag", at, &path)?;
            return Ok(Some(whole));
        }
    }
    Ok(None)
}

// The first fault of a variable.
fn in_variables(
    alloc: Global,
    types: &TemplateTypes,
    tables: &ListOf<Places<'_>>,
    variables: &WrittenVariables,
) -> Result<Option<Text>, OutOfMemory>
    ensures { IfOk result
        (λ found. found
        ≡ list_fault (codes "variable")
        (λ variable. use_fault types.now tables.now variable.kind variable.params)
        variables.now) }
{
    for (at, variable) in variables.as_slice().iter().enumerate() {
        if let Some(path) = in_use(alloc, types, tables, &variable.kind, &variable.params)? {
            let whole = item_path(alloc, "variable", at, &path)?;
            return Ok(Some(whole));
        }
    }
    Ok(None)
}

// The first fault of the parameters of an entry of this type.
fn in_use(
    alloc: Global,
    types: &TemplateTypes,
    tables: &ListOf<Places<'_>>,
    kind: &Text,
    params: &WrittenParams,
) -> Result<Option<Text>, OutOfMemory>
    ensures { IfOk result
        (λ found. found ≡ use_fault types.now tables.now kind.now params.now) }
{
    match types.template(kind) {
        Some(at) => match tables.get(at as usize) {
            Some(names) => in_params(alloc, names, params),
            None => Ok(None),
        },
        None => Ok(None),
    }
}

// The first of these parameters that is given for a table and is none.
fn in_params(
    alloc: Global,
    names: &Places,
    params: &WrittenParams,
) -> Result<Option<Text>, OutOfMemory>
    ensures { IfOk result (λ found. found ≡ params_fault names.now params.now) }
{
    for (at, param) in params.as_slice().iter().enumerate() {
        if names.place(param.key.as_str()).is_some() && !is_map_list(param) {
            let whole = item_path(alloc, "parameter", at, &Text::new(alloc))?;
            return Ok(Some(whole));
        }
    }
    Ok(None)
}

// Whether a parameter is a LIST of MAPs.
fn is_map_list(param: &WrittenParam) -> bool
    ensures { result ≡ is_map_list param.now }
{
    matches!(param.kind, ParamKind::List) && are_maps(param.list.as_slice())
}

// Whether each of these parameters is a MAP.
fn are_maps(params: &[WrittenParam]) -> bool
    ensures { result ≡ are_maps params.now }
{
    params.iter().all(|param| is_map(param.kind))
}

// Whether a kind is that of maps.
fn is_map(kind: ParamKind) -> bool
    ensures { result ≡ is_map kind }
{
    matches!(kind, ParamKind::Map)
}
