ghost use Rattle.std.specs.Prelude.{◌≡◌, [], Some, None};
ghost use Rattle.serde_json.specs.View.{view};
ghost use Rattle.export_fields.specs.Fault.{Reads, Fails};
ghost use Rattle.export_fields.specs.Fields.{not_object, not_text, as_text, required_text_fault};
ghost use Rattle.export_fields.specs.Fields.{text_fault, text_at, flag_fault, flag_at};

use crate::fault::{ReadEnd, broken_at, broken_here, in_key};
use gtm_base::Text;
use serde_json::Value;
use std::alloc::Global;

/// Nothing, where the value is an object. Another value is a fault at itself.
#[tactic(auto, unfolding(crate::specs::Fields::not_object))]
pub fn object(alloc: Global, value: &Value) -> Result<(), ReadEnd>
    ensures { Reads result (not_object (view value.now)) tt }
{
    if value.is_object() {
        Ok(())
    } else {
        Err(broken_here(alloc))
    }
}

// The text that the value is.
pub(crate) fn as_text(alloc: Global, value: &Value) -> Result<Text, ReadEnd>
    ensures { Reads result (not_text (view value.now)) (as_text (view value.now)) }
{
    if let Some(text) = value.as_str() {
        Ok(Text::from_str(alloc, text)?)
    } else {
        Err(broken_here(alloc))
    }
}

/// The text at the key. An absent one is a fault at the object, and a value of another kind, null
/// too, at the field.
#[tactic(auto, unfolding(crate::specs::Fields::required_text_fault, crate::specs::Fields::text_at))]
pub fn required_text(alloc: Global, object: &Value, key: &str) -> Result<Text, ReadEnd>
    ensures { Reads result (required_text_fault key.now (view object.now))
        (text_at key.now (view object.now)) }
{
    match object.get(key) {
        Some(value) => match as_text(alloc, value) {
            Ok(text) => Ok(text),
            Err(end) => Err(in_key(alloc, key, end)),
        },
        None => Err(broken_here(alloc)),
    }
}

/// The text at the key, or the empty text where there is none. A value of another kind, null too,
/// is a fault at the field.
#[tactic(auto, unfolding(crate::specs::Fields::text_fault, crate::specs::Fields::text_at))]
pub fn text(alloc: Global, object: &Value, key: &str) -> Result<Text, ReadEnd>
    ensures { Reads result (text_fault key.now (view object.now))
        (text_at key.now (view object.now)) }
{
    match object.get(key) {
        Some(value) => match as_text(alloc, value) {
            Ok(text) => Ok(text),
            Err(end) => Err(in_key(alloc, key, end)),
        },
        None => Ok(Text::new(alloc)),
    }
}

/// The boolean at the key, or false where there is none. A value of another kind, null too, is a
/// fault at the field.
#[tactic(auto, unfolding(crate::specs::Fields::flag_fault, crate::specs::Fields::flag_at))]
pub fn flag(alloc: Global, object: &Value, key: &str) -> Result<bool, ReadEnd>
    ensures { Reads result (flag_fault key.now (view object.now))
        (flag_at key.now (view object.now)) }
{
    match object.get(key) {
        Some(value) => match value.as_bool() {
            Some(flag) => Ok(flag),
            None => Err(broken_at(alloc, key)),
        },
        None => Ok(false),
    }
}
