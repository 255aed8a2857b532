ghost use Rattle.std.specs.Prelude.{◌≡◌, Some, IfOk, IfErr, option_map};
ghost use Rattle.serde_json.specs.View.{view};
ghost use Rattle.gtm_data.specs.Json.{json_of};
ghost use Rattle.gtm_data.specs.Plain.{plain};
ghost use Rattle.gtm_data.specs.Refusals.{RefusesText};
ghost use Rattle.gtm_data.specs.TextRead.{read_tree};
ghost use Rattle.gtm_data.specs.Tree.{tree_of};
ghost use Rattle.std.specs.Str.{chars};

use crate::data::Data;
use crate::parsing::{parse_data, parse_member};
use crate::reading::{DataEnd, from_json};
use gtm_base::OutOfMemory;
use json::Scratch;
use serde_json::Value;
use std::alloc::Global;

/// The tree of a JSON text, or `None` where the bytes are no JSON.
pub fn json_of(alloc: Global, bytes: &[u8]) -> Result<Option<Value>, OutOfMemory>
    ensures { IfOk result (λ tree. option_map view tree ≡ json_of bytes.now) }
{
    match Value::from_slice(alloc, bytes) {
        Ok(tree) => Ok(Some(tree)),
        Err(error) => if error.is_memory() {
            Err(OutOfMemory)
        } else {
            Ok(None)
        },
    }
}

/// The data of a JSON text, or `None` where the bytes are no JSON. `NotWhole` comes where a number
/// has no place among the data, else `TooDeep` where Lists and Maps nest more than `MAX_DEPTH`
/// deep. The scratch is memory that may be lent to one call after another, whatever they read.
pub fn data_of(alloc: Global, scratch: &mut Scratch, bytes: &[u8]) -> Result<Option<Data>, DataEnd>
    ensures ok { IfOk result (λ found. option_map (λ made. Some (tree_of made)) found
        ≡ option_map plain (json_of bytes.now)) }
    ensures err { IfErr result (RefusesText (json_of bytes.now)) }
{
    match parse_data(alloc, scratch, bytes)? {
        Some(made) => Ok(Some(made)),
        None => data_by_tree(alloc, bytes),
    }
}

/// The data of a JSON text: where the text is an object with one member alone, and that member has
/// the key that was asked for, the value of that member; of each other text, all its data.
#[derive(Debug, Drop)]
pub enum TextData {
    Member(Data),
    Whole(Data),
}

/// The same as `data_of`, but an object whose one member has this key is told by the value of the
/// member, so that no Map is made for it.
pub fn member_or_data_of(
    alloc: Global,
    scratch: &mut Scratch,
    key: &str,
    bytes: &[u8],
) -> Result<Option<TextData>, DataEnd>
    ensures ok { IfOk result (λ found.
        option_map (λ made. Some (read_tree (chars key.now) made)) found
        ≡ option_map plain (json_of bytes.now)) }
    ensures err { IfErr result (RefusesText (json_of bytes.now)) }
{
    match parse_member(alloc, scratch, key, bytes)? {
        Some(made) => Ok(Some(TextData::Member(made))),
        None => match data_of(alloc, scratch, bytes)? {
            Some(made) => Ok(Some(TextData::Whole(made))),
            None => Ok(None),
        },
    }
}

// The same by way of a tree, which tells what stands in the way of data.
fn data_by_tree(alloc: Global, bytes: &[u8]) -> Result<Option<Data>, DataEnd>
    ensures ok { IfOk result (λ found. option_map (λ made. Some (tree_of made)) found
        ≡ option_map plain (json_of bytes.now)) }
    ensures err { IfErr result (RefusesText (json_of bytes.now)) }
{
    match json_of(alloc, bytes)? {
        Some(tree) => Ok(Some(from_json(alloc, &tree)?)),
        None => Ok(None),
    }
}
