ghost use Rattle.std.specs.Prelude.{◌≡◌, IfOk, option_map, string_bytes};
ghost use Rattle.std.specs.Str.{chars};
ghost use Rattle.address_parts.specs.Query.{first_value, query_value_of};

use crate::parts::query;
use form_urlencoded::{decode, raw_pairs};
use gtm_base::{Address, OutOfMemory, Text};
use std::alloc::Global;

/// The first value of a key in the query of an address, read as a form is, or `None` where no pair
/// has the key.
pub fn query_value(
    alloc: Global,
    address: &Address,
    key: &Text,
) -> Result<Option<Text>, OutOfMemory>
    ensures { IfOk result (λ value. value ≡ query_value_of key.now address.now) }
{
    match first_value(alloc, query(address), key.as_str())? {
        Some(value) => Ok(Some(Text::from_str(alloc, value.as_str())?)),
        None => Ok(None),
    }
}

// The first value of a key in a query.
fn first_value(alloc: Global, query: &str, key: &str) -> Result<Option<String>, OutOfMemory>
    ensures { IfOk result (λ value. option_map string_bytes value
        ≡ first_value query.now key.now) }
{
    for (name, value) in raw_pairs(query.as_bytes()) {
        let name = decode(alloc, name)?;
        if name.as_str() == key {
            return Ok(Some(decode(alloc, value)?.into_owned(alloc)?));
        }
    }
    Ok(None)
}
