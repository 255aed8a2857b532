ghost use Rattle.std.specs.Prelude.{◌≡◌, IfOk, IsTrue, option_map};
ghost use Rattle.gtm_base.specs.Ascii.{is_all_ascii};
ghost use Rattle.gtm_data.specs.Paths.{member_of};
ghost use Rattle.gtm_data.specs.Tree.{tree_of, trees_of};
ghost use Rattle.perm_reader.specs.Rows.{columns};
ghost use Rattle.perm_reader.specs.Values.{has_type, text_value, list_value, flag_value, called};
ghost use Rattle.perm_reader.specs.Values.{is_text_found, same_count, row_value, column, param_of};
ghost use Rattle.perm_reader.specs.Values.{text_of_value, flag_of_value, list_found, text_found};

use gtm_base::{OutOfMemory, Text};
use gtm_data::{Data, json_text};
use std::alloc::Global;

/// A row of a table: as many keys as values.
#[derive(Clone, Copy)]
pub(crate) struct Row<'a> {
    pub(crate) keys: &'a [Data],
    pub(crate) values: &'a [Data],
}

// The member of a Map with this key.
pub(crate) fn member<'a>(value: &'a Data, key: &str) -> Option<&'a Data>
    requires { IsTrue (is_all_ascii key.now) }
    ensures { option_map (λ found. tree_of found.now) result
        ≡ member_of key.now (tree_of value.now) }
{
    value.member(key)
}

fn has_type(value: &Data, wanted: i64) -> bool
    ensures { result ≡ has_type wanted (tree_of value.now) }
{
    match member(value, "type") {
        Some(Data::Whole(number)) => *number == wanted,
        _ => false,
    }
}

pub(crate) fn text_member<'a>(value: &'a Data, key: &str) -> Option<&'a Text>
    requires { IsTrue (is_all_ascii key.now) }
    ensures { option_map (λ found. found.now) result
        ≡ text_found (member_of key.now (tree_of value.now)) }
{
    match member(value, key) {
        Some(found) => found.as_text(),
        None => None,
    }
}

pub(crate) fn list_member<'a>(value: &'a Data, key: &str) -> Option<&'a [Data]>
    requires { IsTrue (is_all_ascii key.now) }
    ensures { option_map (λ found. trees_of found.now) result
        ≡ list_found (member_of key.now (tree_of value.now)) }
{
    match member(value, key) {
        Some(Data::List(items)) => Some(items.as_slice()),
        _ => None,
    }
}

pub(crate) fn text_value(value: &Data) -> Option<&Text>
    ensures { option_map (λ found. found.now) result ≡ text_value (tree_of value.now) }
{
    if has_type(value, 1) {
        text_member(value, "string")
    } else {
        None
    }
}

pub(crate) fn list_value(value: &Data) -> Option<&[Data]>
    ensures { option_map (λ found. trees_of found.now) result ≡ list_value (tree_of value.now) }
{
    if has_type(value, 2) {
        list_member(value, "listItem")
    } else {
        None
    }
}

fn flag_value(value: &Data) -> bool
    ensures { result ≡ flag_value (tree_of value.now) }
{
    if !has_type(value, 8) {
        return false;
    }
    match member(value, "boolean") {
        Some(Data::Bool(flag)) => *flag,
        _ => false,
    }
}

// What a value is called in a warning: its text, or else itself as JSON.
pub(crate) fn called(alloc: Global, value: &Data) -> Result<Text, OutOfMemory>
    ensures { IfOk result (λ text. text ≡ called (tree_of value.now)) }
{
    match text_value(value) {
        Some(text) => text.copy(alloc),
        None => json_text(alloc, value),
    }
}

pub(crate) fn row_value(value: &Data) -> Option<Row>
    ensures { option_map columns result ≡ row_value (tree_of value.now) }
{
    if !has_type(value, 3) {
        return None;
    }
    let keys = list_member(value, "mapKey")?;
    let values = list_member(value, "mapValue")?;
    if same_count(keys, values) {
        Some(Row { keys, values })
    } else {
        None
    }
}

fn same_count(some: &[Data], other: &[Data]) -> bool
    ensures { result ≡ same_count (trees_of some.now) (trees_of other.now) }
{
    some.len() == other.len()
}

// The value in this column of a row.
fn column<'a>(row: &Row<'a>, name: &str) -> Option<&'a Data>
    requires { IsTrue (is_all_ascii name.now) }
    ensures { option_map (λ found. tree_of found.now) result ≡ column name.now (columns row.now) }
{
    let mut keys = row.keys;
    let mut values = row.values;
    while let Some((key, more_keys)) = keys.split_first() {
        let (value, more_values) = values.split_first()?;
        if is_text(text_value(key), name) {
            return Some(value);
        }
        keys = more_keys;
        values = more_values;
    }
    None
}

pub(crate) fn text_column<'a>(row: &Row<'a>, name: &str) -> Option<&'a Text>
    requires { IsTrue (is_all_ascii name.now) }
    ensures { option_map (λ found. found.now) result
        ≡ text_of_value (column name.now (columns row.now)) }
{
    match column(row, name) {
        Some(value) => text_value(value),
        None => None,
    }
}

pub(crate) fn flag_column(row: &Row, name: &str) -> bool
    requires { IsTrue (is_all_ascii name.now) }
    ensures { result ≡ flag_of_value (column name.now (columns row.now)) }
{
    match column(row, name) {
        Some(value) => flag_value(value),
        None => false,
    }
}

// Whether there is a text, and it is this word.
pub(crate) fn is_text(text: Option<&Text>, word: &str) -> bool
    requires { IsTrue (is_all_ascii word.now) }
    ensures { result ≡ is_text_found word.now (option_map (λ found. found.now) text.entry) }
{
    match text {
        Some(text) => text.is_word(word),
        None => false,
    }
}

// The value of the first parameter of this key.
pub(crate) fn param<'a>(params: &'a [Data], name: &str) -> Option<&'a Data>
    requires { IsTrue (is_all_ascii name.now) }
    ensures { option_map (λ found. tree_of found.now) result
        ≡ param_of name.now (trees_of params.now) }
{
    for param in params {
        if is_text(text_member(param, "key"), name) {
            return member(param, "value");
        }
    }
    None
}

pub(crate) fn flag_param(params: &[Data], name: &str) -> bool
    requires { IsTrue (is_all_ascii name.now) }
    ensures { result ≡ flag_of_value (param_of name.now (trees_of params.now)) }
{
    match param(params, name) {
        Some(value) => flag_value(value),
        None => false,
    }
}
