ghost use Rattle.std.specs.Prelude.{◌≡◌, ◌+◌, ◌++◌, IfOk, OnOk};
ghost use Rattle.std.specs.List.{flat_map};
ghost use Rattle.std.specs.Str.{chars};
ghost use Rattle.serde_json.specs.View.{view, items_view, members_view};
ghost use Rattle.gtm_data.specs.Plain.{pointer_char, key_step, index_step, nodes, item_nodes};
ghost use Rattle.gtm_data.specs.Plain.{member_nodes, first_path, is_unfit_at, is_nest_below};

use crate::numbers::whole_of;
use gtm_base::{OutOfMemory, Text};
use serde_json::{Map, Value};
use std::alloc::Global;

/// The JSON pointer from the value to the first number that is not whole and in range. Takes memory
/// only where there is one.
#[cycle(not_whole)]
#[tactic(auto, unfolding(crate::specs::Plain::nodes))]
pub(crate) fn not_whole(alloc: Global, value: &Value) -> Result<Option<Text>, OutOfMemory>
    ensures { IfOk result (λ found. found ≡ first_path is_unfit_at (nodes (view value.now))) }
{
    match value {
        Value::Number(number) => {
            if whole_of(number).is_some() {
                Ok(None)
            } else {
                Ok(Some(Text::new(alloc)))
            }
        }
        Value::Array(items) => items_not_whole(alloc, items),
        Value::Object(members) => members_not_whole(alloc, members),
        Value::Null | Value::Bool(_) | Value::String(_) => Ok(None),
    }
}

#[cycle(not_whole)]
fn items_not_whole(alloc: Global, items: &Vec<Value>) -> Result<Option<Text>, OutOfMemory>
    ensures { IfOk result
        (λ found. found ≡ first_path is_unfit_at (item_nodes 0 (items_view items.now.items))) }
{
    for (at, item) in items.iter().enumerate() {
        if let Some(path) = not_whole(alloc, item)? {
            return Ok(Some(from_index(alloc, at, &path)?));
        }
    }
    Ok(None)
}

#[cycle(not_whole)]
fn members_not_whole(
    alloc: Global,
    members: &Map<String, Value>,
) -> Result<Option<Text>, OutOfMemory>
    ensures { IfOk result
        (λ found. found
        ≡ first_path is_unfit_at (member_nodes (members_view members.now.entries))) }
{
    for (key, member) in members.iter() {
        if let Some(path) = not_whole(alloc, member)? {
            return Ok(Some(from_key(alloc, key.as_str(), &path)?));
        }
    }
    Ok(None)
}

/// The JSON pointer from the value to the first List or Map with at least so many Lists and Maps
/// above it, counted from the value on. Takes memory only where there is one.
#[cycle(too_deep)]
#[tactic(auto, unfolding(crate::specs::Plain::nodes))]
pub(crate) fn too_deep(
    alloc: Global,
    allowed: usize,
    value: &Value,
) -> Result<Option<Text>, OutOfMemory>
    ensures { IfOk result
        (λ found. found ≡ first_path (is_nest_below allowed) (nodes (view value.now))) }
{
    match value {
        Value::Array(items) => {
            if allowed == 0 {
                Ok(Some(Text::new(alloc)))
            } else {
                items_too_deep(alloc, allowed - 1, items)
            }
        }
        Value::Object(members) => {
            if allowed == 0 {
                Ok(Some(Text::new(alloc)))
            } else {
                members_too_deep(alloc, allowed - 1, members)
            }
        }
        Value::Null | Value::Bool(_) | Value::Number(_) | Value::String(_) => Ok(None),
    }
}

// `allowed` counts within each item. The List that has the items is one more above.
#[cycle(too_deep)]
fn items_too_deep(
    alloc: Global,
    allowed: usize,
    items: &Vec<Value>,
) -> Result<Option<Text>, OutOfMemory>
    ensures { IfOk result
        (λ found. found
        ≡ first_path (is_nest_below (allowed + 1)) (item_nodes 0 (items_view items.now.items))) }
{
    for (at, item) in items.iter().enumerate() {
        if let Some(path) = too_deep(alloc, allowed, item)? {
            return Ok(Some(from_index(alloc, at, &path)?));
        }
    }
    Ok(None)
}

#[cycle(too_deep)]
fn members_too_deep(
    alloc: Global,
    allowed: usize,
    members: &Map<String, Value>,
) -> Result<Option<Text>, OutOfMemory>
    ensures { IfOk result
        (λ found. found
        ≡ first_path (is_nest_below (allowed + 1))
        (member_nodes (members_view members.now.entries))) }
{
    for (key, member) in members.iter() {
        if let Some(path) = too_deep(alloc, allowed, member)? {
            return Ok(Some(from_key(alloc, key.as_str(), &path)?));
        }
    }
    Ok(None)
}

// The path within the item at a place, from the items on.
fn from_index(alloc: Global, place: usize, path: &Text) -> Result<Text, OutOfMemory>
    ensures { IfOk result (λ made. made ≡ index_step place ++ path.now) }
{
    let mut made = Text::new(alloc);
    made.push('/')?;
    made.push_unsigned(place as u64)?;
    made.push_str(path.as_str())?;
    Ok(made)
}

// The path within the member with a key, from the members on.
fn from_key(alloc: Global, key: &str, path: &Text) -> Result<Text, OutOfMemory>
    ensures { IfOk result (λ made. made ≡ key_step (chars key.now) ++ path.now) }
{
    let mut made = Text::new(alloc);
    made.push('/')?;
    push_pointer(&mut made, key)?;
    made.push_str(path.as_str())?;
    Ok(made)
}

fn push_pointer(out: &mut Text, key: &str) -> Result<(), OutOfMemory>
    ensures { OnOk result (out.new ≡ out.old ++ flat_map pointer_char (chars key.now)) }
{
    for c in key.chars() {
        push_pointer_char(out, c)?;
    }
    Ok(())
}

fn push_pointer_char(out: &mut Text, c: char) -> Result<(), OutOfMemory>
    ensures { OnOk result (out.new ≡ out.old ++ pointer_char c) }
{
    match c {
        '~' => out.push_word("~0"),
        '/' => out.push_word("~1"),
        _ => out.push(c),
    }
}
