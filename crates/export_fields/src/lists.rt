ghost use Rattle.std.specs.Prelude.{◌≡◌, [], Some, None, Option, List, ℕ};
ghost use Rattle.serde_json.specs.Data.{Data};
ghost use Rattle.serde_json.specs.View.{view, items_view};
ghost use Rattle.export_fields.specs.Fault.{Reads, Fails};
ghost use Rattle.export_fields.specs.Fields.{not_text, as_text};
ghost use Rattle.export_fields.specs.ListOf.{items_fault, items_made, list_fault, list_at};

use crate::fault::{ReadEnd, broken_at, in_index, in_key};
use crate::fields::as_text;
use gtm_base::{ListOf, Text, Texts};
use serde_json::Value;
use std::alloc::Global;

/// What a JSON value is read as: `fault` is its first fault, seen from the value, and `made` is
/// what it stands for.
pub trait Entry: Sized + Drop {
    ghost fault: { Data → Option (List ℕ) };

    ghost made: { Data → Self };

    /// What the value stands for, where it has no fault; else its first fault.
    fn read(alloc: Global, value: &Value) -> Result<Self, ReadEnd>
        ensures { Reads result (fault (view value.now)) (made (view value.now)) };
}

impl Entry for Text {
    ghost use Rattle.export_fields.specs.Fields.{not_text, as_text};

    ghost fault = { not_text };

    ghost made = { as_text };

    fn read(alloc: Global, value: &Value) -> Result<Text, ReadEnd> {
        as_text(alloc, value)
    }
}

// What the items stand for.
fn items_of<T: Entry>(alloc: Global, items: &Vec<Value>) -> Result<ListOf<T>, ReadEnd>
    ensures { Reads result (items_fault T.fault 0 (items_view items.now.items))
        (items_made T.made (items_view items.now.items)) }
{
    let mut made = ListOf::new(alloc);
    for (at, item) in items.iter().enumerate() {
        match T::read(alloc, item) {
            Ok(entry) => made.push(entry)?,
            Err(end) => return Err(in_index(alloc, at, end)),
        }
    }
    Ok(made)
}

/// What the items of the list at the key stand for, or the empty list where there is none. A value
/// that is no list is a fault at the field; else the first item with a fault tells it, with its
/// place in the path.
#[tactic(auto, unfolding(crate::specs::ListOf::list_fault, crate::specs::ListOf::list_at))]
pub fn list_of<T: Entry>(alloc: Global, object: &Value, key: &str) -> Result<ListOf<T>, ReadEnd>
    ensures { Reads result (list_fault T.fault key.now (view object.now))
        (list_at T.made key.now (view object.now)) }
{
    match object.get(key) {
        Some(value) => match value.as_array() {
            Some(items) => match items_of(alloc, items) {
                Ok(made) => Ok(made),
                Err(end) => Err(in_key(alloc, key, end)),
            },
            None => Err(broken_at(alloc, key)),
        },
        None => Ok(ListOf::new(alloc)),
    }
}

/// The texts of the list at the key, or the empty list where there is none. A value that is no list
/// is a fault at the field; else the first item that is no text is one.
pub fn texts(alloc: Global, object: &Value, key: &str) -> Result<Texts, ReadEnd>
    ensures { Reads result (list_fault not_text key.now (view object.now))
        (list_at as_text key.now (view object.now)) }
{
    list_of(alloc, object, key)
}
