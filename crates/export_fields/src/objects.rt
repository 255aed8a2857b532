ghost use Rattle.std.specs.Prelude.{◌≡◌, [], Some, None};
ghost use Rattle.serde_json.specs.View.{view, items_view};
ghost use Rattle.export_fields.specs.Fault.{Reads, Fails};
ghost use Rattle.export_fields.specs.Objects.{object_fault, object_at, single_fault, single_at};
ghost use Rattle.export_fields.specs.Objects.{only_fault, only_of};

use crate::fault::{ReadEnd, broken_at, broken_here, in_index, in_key};
use crate::lists::Entry;
use serde_json::Value;
use std::alloc::Global;

/// What the value at the key stands for, or `None` where there is none. Its fault has the key in
/// its path.
#[tactic(auto, unfolding(crate::specs::Objects::object_fault, crate::specs::Objects::object_at))]
pub fn object_at<T: Entry>(alloc: Global, object: &Value, key: &str) -> Result<Option<T>, ReadEnd>
    ensures { Reads result (object_fault T.fault key.now (view object.now))
        (object_at T.made key.now (view object.now)) }
{
    match object.get(key) {
        Some(value) => match T::read(alloc, value) {
            Ok(made) => Ok(Some(made)),
            Err(end) => Err(in_key(alloc, key, end)),
        },
        None => Ok(None),
    }
}

// What the one item stands for, where there is one.
#[tactic(auto, using(crate::proofs::Only::only_fault_of_many))]
fn only_of<T: Entry>(alloc: Global, items: &[Value]) -> Result<Option<T>, ReadEnd>
    ensures { Reads result (only_fault T.fault (items_view items.now))
        (only_of T.made (items_view items.now)) }
{
    if items.len() > 1 {
        return Err(broken_here(alloc));
    }
    match items.first() {
        None => Ok(None),
        Some(item) => match T::read(alloc, item) {
            Ok(made) => Ok(Some(made)),
            Err(end) => Err(in_index(alloc, 0, end)),
        },
    }
}

/// What the one item of the list at the key stands for, or `None` where there is no list or no
/// item. A value that is no list, and a list of two or more items, is a fault at the field; else
/// the fault of the item has the key and the place 0 in its path.
#[tactic(auto, unfolding(crate::specs::Objects::single_fault, crate::specs::Objects::single_at))]
pub fn single_at<T: Entry>(alloc: Global, object: &Value, key: &str) -> Result<Option<T>, ReadEnd>
    ensures { Reads result (single_fault T.fault key.now (view object.now))
        (single_at T.made key.now (view object.now)) }
{
    match object.get(key) {
        Some(value) => match value.as_array() {
            Some(items) => match only_of(alloc, items.as_slice()) {
                Ok(made) => Ok(made),
                Err(end) => Err(in_key(alloc, key, end)),
            },
            None => Err(broken_at(alloc, key)),
        },
        None => Ok(None),
    }
}
