ghost use Rattle.std.specs.Prelude.{◌≡◌, [], None, Some, IfOk, IfErr, OnOk};
ghost use Rattle.serde_json.specs.View.{view, items_view, members_view};
ghost use Rattle.gtm_data.specs.Plain.{plain, not_whole, too_deep, tree_in, trees_in, entries_in};
ghost use Rattle.gtm_data.specs.Refusals.{Refuses, IsOutOfMemory};
ghost use Rattle.gtm_data.specs.Tree.{tree_of, trees_of, entries_of};

use crate::MAX_DEPTH;
use crate::data::{Data, Items, Members};
use crate::numbers::whole_of;
use crate::refusing::{not_whole, too_deep};
use gtm_base::{OutOfMemory, Text};
use serde_json::{Map, Value};
use std::alloc::Global;

/// Why there is no data of a JSON tree or text.
#[derive(Debug, Drop)]
pub enum DataEnd {
    /// Memory was wanting.
    OutOfMemory,
    /// The number at this JSON pointer is not whole, or lies outside of -9007199254740991 to
    /// 9007199254740991. It is the first one.
    NotWhole { path: Text },
    /// The List or Map at this JSON pointer has `MAX_DEPTH` Lists and Maps above it. It is the
    /// first one.
    TooDeep { path: Text },
}

impl From<OutOfMemory> for DataEnd {
    ghost from_gives = { λ _ end. IsOutOfMemory end };

    fn from(_: OutOfMemory) -> DataEnd {
        DataEnd::OutOfMemory
    }
}

/// The data of a JSON tree. `NotWhole` comes where a number has no place among the data, else
/// `TooDeep` where Lists and Maps nest more than `MAX_DEPTH` deep.
pub fn from_json(alloc: Global, tree: &Value) -> Result<Data, DataEnd>
    ensures ok { IfOk result (λ made. plain (view tree.now) ≡ Some (tree_of made)) }
    ensures err { IfErr result (Refuses (view tree.now)) }
{
    match check_json(alloc, tree) {
        Ok(()) => Ok(convert(alloc, tree)?),
        Err(end) => Err(end),
    }
}

/// Whether there is data of a JSON tree: `Ok` exactly where `from_json` gives some, memory aside,
/// and else its very error.
pub fn check_json(alloc: Global, tree: &Value) -> Result<(), DataEnd>
    ensures ok { OnOk result
        ((not_whole (view tree.now) ≡ None) × (too_deep (view tree.now) ≡ None)) }
    ensures err { IfErr result (Refuses (view tree.now)) }
{
    if let Some(path) = not_whole(alloc, tree)? {
        return Err(DataEnd::NotWhole { path });
    }
    if let Some(path) = too_deep(alloc, MAX_DEPTH, tree)? {
        return Err(DataEnd::TooDeep { path });
    }
    Ok(())
}

// The data of a tree whose numbers are all whole and in range.
#[cycle(convert)]
#[tactic(auto, unfolding(crate::specs::Plain::tree_in))]
fn convert(alloc: Global, tree: &Value) -> Result<Data, OutOfMemory>
    ensures { IfOk result (λ made. tree_of made ≡ tree_in (view tree.now)) }
{
    match tree {
        Value::Null => Ok(Data::Null),
        Value::Bool(truth) => Ok(Data::Bool(*truth)),
        Value::Number(number) => Ok(Data::Whole(whole_of(number).unwrap_or(0))),
        Value::String(text) => Ok(Data::Text(Text::from_str(alloc, text.as_str())?)),
        Value::Array(items) => Ok(Data::List(convert_items(alloc, items)?)),
        Value::Object(members) => Ok(Data::Map(convert_members(alloc, members)?)),
    }
}

#[cycle(convert)]
fn convert_items(alloc: Global, items: &Vec<Value>) -> Result<Items, OutOfMemory>
    ensures { IfOk result (λ made. trees_of made ≡ trees_in (items_view items.now.items)) }
{
    let mut made = Items::new(alloc);
    for item in items {
        made.push(convert(alloc, item)?)?;
    }
    Ok(made)
}

#[cycle(convert)]
fn convert_members(alloc: Global, members: &Map<String, Value>) -> Result<Members, OutOfMemory>
    ensures { IfOk result
        (λ made. entries_of made.pairs ≡ entries_in (members_view members.now.entries)) }
{
    let mut made = Members::new(alloc);
    for (key, member) in members.iter() {
        let name = Text::from_str(alloc, key.as_str())?;
        made.push(name, convert(alloc, member)?)?;
    }
    Ok(made)
}
