ghost use Rattle.std.specs.Prelude.{◌≡◌, ◌≢◌, ◌++◌, IfOk, OnOk, Err, codes};
ghost use Rattle.gtm_data.specs.Tree.{tree_of, trees_of, entries_of};
ghost use Rattle.gtm_data.specs.Paths.{member_of};
ghost use Rattle.template_fields.specs.Fields.{fields_read, fields_below, fields_at, sub_fields};
ghost use Rattle.template_fields.specs.Fields.{list_fields, radio_fields, radio_list_fields};
ghost use Rattle.template_fields.specs.Fields.{radios_fields, radio_item_fields, own_field};
ghost use Rattle.template_fields.specs.Fields.{is_table, listed_fields, fields_in};
ghost use Rattle.template_fields.specs.Forms.{text_found};

use crate::firsts::distinct_fields;
use crate::forms::{are_fields, is_group, is_tag, text_member};
use export_model::{FieldName, FieldNames};
use gtm_base::{OutOfMemory, Text};
use gtm_data::{Data, Members};
use std::alloc::Global;

/// Why a template has no fields.
#[derive(Clone, Copy, Debug, PartialEq, Eq)]
pub enum FieldsEnd {
    OutOfMemory,
    /// INFO is no object with the type TAG or MACRO.
    Info,
    /// The parameters are no list of objects with a kind and, but for groups and labels, a name,
    /// or those below one of them are none.
    Fields,
}

impl From<OutOfMemory> for FieldsEnd {
    ghost use Rattle.std.specs.Prelude.{◌≡◌};
    ghost use Rattle.template_fields.specs.declared.fields.FieldsEnd.{FieldsEnd};

    ghost from_gives = { λ _ end. end ≡ FieldsEnd.OutOfMemory };

    fn from(_: OutOfMemory) -> Self {
        FieldsEnd::OutOfMemory
    }
}

/// Whether a template is one of tags, and its fields: the objects of its parameters but for groups
/// and labels, directly behind each those of its `subParams`, and then those of the `subParams` of
/// its `radioItems`. Of two with one name the first counts.
pub fn read_fields(
    alloc: Global,
    info: &Data,
    parameters: &Data,
) -> Result<(bool, FieldNames), FieldsEnd>
    ensures { result ≢ Err FieldsEnd.OutOfMemory →
        result ≡ fields_read (tree_of info.now) (tree_of parameters.now) }
{
    let tag = match is_tag(alloc, info)? {
        Some(tag) => tag,
        None => return Err(FieldsEnd::Info),
    };
    match fields_in(alloc, parameters)? {
        Some(fields) => Ok((tag, fields)),
        None => Err(FieldsEnd::Fields),
    }
}

/// The fields of a list of parameters, as `read_fields` gives them, or `None` where it has not the
/// form of one. Fails where memory is wanting.
pub fn fields_in(alloc: Global, parameters: &Data) -> Result<Option<FieldNames>, OutOfMemory>
    ensures { IfOk result (λ found. found ≡ fields_in (tree_of parameters.now)) }
{
    match parameters {
        Data::List(items) => listed_fields(alloc, items.as_slice()),
        _ => Ok(None),
    }
}

// The fields of these objects, where they have the form.
fn listed_fields(alloc: Global, items: &[Data]) -> Result<Option<FieldNames>, OutOfMemory>
    ensures { IfOk result (λ found. found ≡ listed_fields (trees_of items.now)) }
{
    if !are_fields(items) {
        return Ok(None);
    }
    let mut all = FieldNames::new(alloc);
    put_fields(alloc, &mut all, items)?;
    let fields = distinct_fields(alloc, all.as_slice())?;
    Ok(Some(fields))
}

#[cycle(fields)]
fn put_fields(alloc: Global, out: &mut FieldNames, items: &[Data]) -> Result<(), OutOfMemory>
    ensures { OnOk result (out.new ≡ out.old ++ fields_below (trees_of items.now)) }
{
    for item in items {
        put_object(alloc, out, item)?;
    }
    Ok(())
}

#[cycle(fields)]
fn put_object(alloc: Global, out: &mut FieldNames, value: &Data) -> Result<(), OutOfMemory>
    ensures { OnOk result (out.new ≡ out.old ++ fields_at (tree_of value.now)) }
{
    match value {
        Data::Map(members) => {
            put_own(alloc, out, value)?;
            put_subs(alloc, out, members)?;
            put_radios(alloc, out, members)
        },
        _ => Ok(()),
    }
}

// The field that an object is, but for groups and labels.
fn put_own(alloc: Global, out: &mut FieldNames, value: &Data) -> Result<(), OutOfMemory>
    ensures { OnOk result (out.new ≡ out.old ++ own_field
        (text_found (member_of (codes "type") (tree_of value.now)))
        (text_found (member_of (codes "name") (tree_of value.now)))) }
{
    let Some(kind) = text_member(value, "type") else {
        return Ok(());
    };
    let Some(name) = text_member(value, "name") else {
        return Ok(());
    };
    if is_group(kind) {
        return Ok(());
    }
    out.push(FieldName {
        name: name.copy(alloc)?,
        table: is_table(kind),
    })
}

fn is_table(kind: &Text) -> bool
    ensures { result ≡ is_table kind.now }
{
    kind.is_word("SIMPLE_TABLE") || kind.is_word("PARAM_TABLE")
}

#[cycle(fields)]
fn put_subs(alloc: Global, out: &mut FieldNames, members: &Members) -> Result<(), OutOfMemory>
    ensures { OnOk result (out.new ≡ out.old ++ sub_fields (entries_of members.now.pairs)) }
{
    for member in members.as_slice() {
        if member.0.is_word("subParams") {
            return put_list(alloc, out, &member.1);
        }
    }
    Ok(())
}

#[cycle(fields)]
fn put_list(alloc: Global, out: &mut FieldNames, value: &Data) -> Result<(), OutOfMemory>
    ensures { OnOk result (out.new ≡ out.old ++ list_fields (tree_of value.now)) }
{
    match value {
        Data::List(items) => put_fields(alloc, out, items.as_slice()),
        _ => Ok(()),
    }
}

#[cycle(fields)]
fn put_radios(alloc: Global, out: &mut FieldNames, members: &Members) -> Result<(), OutOfMemory>
    ensures { OnOk result (out.new ≡ out.old ++ radio_fields (entries_of members.now.pairs)) }
{
    for member in members.as_slice() {
        if member.0.is_word("radioItems") {
            return put_radio_list(alloc, out, &member.1);
        }
    }
    Ok(())
}

#[cycle(fields)]
fn put_radio_list(alloc: Global, out: &mut FieldNames, value: &Data) -> Result<(), OutOfMemory>
    ensures { OnOk result (out.new ≡ out.old ++ radio_list_fields (tree_of value.now)) }
{
    match value {
        Data::List(items) => put_radio_items(alloc, out, items.as_slice()),
        _ => Ok(()),
    }
}

#[cycle(fields)]
fn put_radio_items(alloc: Global, out: &mut FieldNames, items: &[Data]) -> Result<(), OutOfMemory>
    ensures { OnOk result (out.new ≡ out.old ++ radios_fields (trees_of items.now)) }
{
    for item in items {
        put_radio_item(alloc, out, item)?;
    }
    Ok(())
}

#[cycle(fields)]
fn put_radio_item(alloc: Global, out: &mut FieldNames, value: &Data) -> Result<(), OutOfMemory>
    ensures { OnOk result (out.new ≡ out.old ++ radio_item_fields (tree_of value.now)) }
{
    match value {
        Data::Map(members) => put_subs(alloc, out, members),
        _ => Ok(()),
    }
}
