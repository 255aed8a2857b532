ghost use Rattle.std.specs.Prelude.{◌≡◌, ◌++◌, ◌∷◌, [], false, map, IfOk, OnOk, option_map};
ghost use Rattle.gtm_base.specs.Keys.{has_key};
ghost use Rattle.gtm_base.specs.KeysStay.{on_value};
ghost use Rattle.gtm_data.specs.Paths.{member};
ghost use Rattle.gtm_data.specs.Tree.{tree_of, entries_of, object, entries};
ghost use Rattle.template_fields.specs.Fields.{fields_of, chosen, names_of};
ghost use Rattle.template_fields.specs.Places.{value_found};

use crate::firsts::{is_place, names_of};
use export_model::{FieldName, FieldNames};
use gtm_base::{OutOfMemory, Text};
use gtm_data::{Data, Members, copy};
use std::alloc::Global;
use text_places::Places;

/// The Map of those resolved members whose keys are fields, in the order of the fields.
pub fn fields_of(alloc: Global, names: &FieldNames, resolved: &Data) -> Result<Data, OutOfMemory>
    ensures { IfOk result
        (λ made. tree_of made ≡ object (entries (fields_of names.now (tree_of resolved.now)))) }
{
    match resolved {
        Data::Map(members) => Ok(Data::Map(chosen(alloc, names.as_slice(), members)?)),
        _ => Ok(Data::Map(Members::new(alloc))),
    }
}

fn chosen(alloc: Global, fields: &[FieldName], members: &Members) -> Result<Members, OutOfMemory>
    ensures { IfOk result (λ made. map (on_value tree_of) made.pairs
        ≡ chosen (names_of fields.now) 0 fields.now (entries_of members.now.pairs)) }
{
    let names = names_of(alloc, fields)?;
    let names = Places::of(alloc, names)?;
    let keys = keys_of(alloc, members)?;
    let keys = Places::of(alloc, keys)?;
    let mut made = Members::new(alloc);
    for (at, field) in fields.iter().enumerate() {
        if is_place(at, names.place(field.name.as_str())) {
            if let Some(value) = value_at(members, keys.place(field.name.as_str())) {
                put_copy(alloc, &mut made, &field.name, value)?;
            }
        }
    }
    Ok(made)
}

// Puts a copy of a pair behind the last.
fn put_copy(alloc: Global, made: &mut Members, name: &Text, value: &Data) -> Result<(), OutOfMemory>
    requires { has_key name.now made.old.pairs ≡ false }
    ensures { OnOk result (made.new.pairs ≡ made.old.pairs ++ (name.now, value.now) ∷ []) }
{
    let name = name.copy(alloc)?;
    made.push(name, copy(alloc, value)?)
}

fn keys_of(alloc: Global, members: &Members) -> Result<Vec<&Text>, OutOfMemory>
    ensures { IfOk result
        (λ keys. map (λ k. k.now) keys.items ≡ map (λ p. p.0) members.now.pairs) }
{
    let mut keys = Vec::with_capacity(alloc, members.len())?;
    for member in members.as_slice() {
        keys.push(&member.0)?;
    }
    Ok(keys)
}

// The value of the member at a place, where there is one.
fn value_at<'a>(members: &'a Members, place: Option<usize>) -> Option<&'a Data>
    ensures { option_map (λ found. tree_of found.now) result
        ≡ value_found (map (on_value tree_of) members.now.pairs) place }
{
    match members.as_slice().get(place?) {
        Some(member) => Some(&member.1),
        None => None,
    }
}
