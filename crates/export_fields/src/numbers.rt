ghost use Rattle.std.specs.Prelude.{◌≡◌, [], Some, None};
ghost use Rattle.serde_json.specs.View.{view};
ghost use Rattle.export_fields.specs.Fault.{Reads, Fails};
ghost use Rattle.export_fields.specs.Numbers.{as_whole, whole_fault, whole_at};

use crate::fault::{ReadEnd, broken_at};
use gtm_data::{whole_of, whole_text};
use serde_json::Value;
use std::alloc::Global;

// The whole number that the value is, as a number or as a text.
fn as_whole(value: &Value) -> Option<i64>
    ensures { result ≡ as_whole (view value.now) }
{
    match value {
        Value::Number(number) => whole_of(number),
        Value::String(text) => whole_text(text.as_str()),
        Value::Null | Value::Bool(_) | Value::Array(_) | Value::Object(_) => None,
    }
}

/// The whole number at the key, or `None` where there is none. It stands there as a number from
/// -9007199254740991 to 9007199254740991, or as a text that is one: an optional `-` and ASCII
/// digits. Anything else is a fault at the field.
#[tactic(auto, unfolding(crate::specs::Numbers::whole_fault, crate::specs::Numbers::whole_at))]
pub fn whole_at(alloc: Global, object: &Value, key: &str) -> Result<Option<i64>, ReadEnd>
    ensures { Reads result (whole_fault key.now (view object.now))
        (whole_at key.now (view object.now)) }
{
    match object.get(key) {
        Some(value) => match as_whole(value) {
            Some(number) => Ok(Some(number)),
            None => Err(broken_at(alloc, key)),
        },
        None => Ok(None),
    }
}
