ghost use Rattle.std.specs.Prelude.{◌≡◌, ◌++◌, codes, option_map, false, IfOk, OnOk};
ghost use Rattle.std.specs.Option.{option_map_or};
ghost use Rattle.std.specs.Str.{bytes_eq};
ghost use Rattle.gtm_data.specs.Paths.{member_of};
ghost use Rattle.gtm_data.specs.TextOf.{text_of};
ghost use Rattle.gtm_data.specs.Tree.{tree_of, trees_of};
ghost use Rattle.variable_kinds.specs.Ends.{Asks, finds};
ghost use Rattle.variable_kinds.specs.Fields.{first_row, found_row, looked_up, rows_of};
ghost use Rattle.variable_kinds.specs.Patterns.{pattern_in, patterns_of, row_patterns};
ghost use Rattle.variable_kinds.specs.Patterns.{whole_pattern};

use crate::ValueEnd;
use crate::asking::finds;
use crate::inputs::{input, or_none, rows};
use crate::reading::{field, is_set, member};
use gtm_base::{Engines, OutOfMemory, Text};
use gtm_data::{Data, text_of};
use std::alloc::Global;

/// The value of a lookup table.
pub fn lookup(alloc: Global, fields: &Data) -> Result<Data, OutOfMemory>
    ensures { IfOk result (λ made. tree_of made ≡ looked_up bytes_eq (tree_of fields.now)) }
{
    let found = row_of_input(alloc, fields)?;
    or_none(alloc, fields, found)
}

// The value of the first row whose key is the input.
fn row_of_input(alloc: Global, fields: &Data) -> Result<Option<Data>, OutOfMemory>
    ensures { IfOk result (λ found.
        option_map tree_of found ≡ found_row bytes_eq (tree_of fields.now)) }
{
    match input(alloc, fields)? {
        Some(input) => row_with_key(alloc, rows(fields), &input),
        None => Ok(None),
    }
}

// The value of the first row with a key of this text.
fn row_with_key(alloc: Global, table: &[Data], input: &Text) -> Result<Option<Data>, OutOfMemory>
    ensures { IfOk result (λ found.
        option_map tree_of found ≡ first_row (λ key. bytes_eq key input.now) (trees_of table.now)) }
{
    for row in table {
        if has_key(alloc, row, input)? {
            return Ok(Some(field(alloc, row, "value")?));
        }
    }
    Ok(None)
}

fn has_key(alloc: Global, row: &Data, input: &Text) -> Result<bool, OutOfMemory>
    ensures { IfOk result (λ has. has ≡ option_map_or (λ key. bytes_eq (text_of key) input.now)
        (member_of (codes "key") (tree_of row.now)) false) }
{
    match member(row, "key") {
        Some(key) => Ok(text_of(alloc, key)?.is(input.as_str())),
        None => Ok(false),
    }
}

/// The value of a table whose keys are patterns.
pub fn regex_table<E: Engines>(
    alloc: Global,
    engines: &mut E,
    fields: &Data,
) -> Result<Data, ValueEnd>
    ensures value { IfOk result (λ made. tree_of made
        ≡ looked_up (λ key input. finds (pattern_in (tree_of fields.now) key) input)
        (tree_of fields.now)) }
    ensures asks { Asks (patterns_of (tree_of fields.now) (rows_of (tree_of fields.now)))
        result (E.state engines.old) (E.state engines.new) }
{
    let found = row_for_input(alloc, engines, fields)?;
    Ok(or_none(alloc, fields, found)?)
}

// The value of the first row with a pattern that is found in the input.
fn row_for_input<E: Engines>(
    alloc: Global,
    engines: &mut E,
    fields: &Data,
) -> Result<Option<Data>, ValueEnd>
    ensures value { IfOk result (λ found. option_map tree_of found
        ≡ found_row (λ key input. finds (pattern_in (tree_of fields.now) key) input)
        (tree_of fields.now)) }
    ensures asks { Asks (patterns_of (tree_of fields.now) (rows_of (tree_of fields.now)))
        result (E.state engines.old) (E.state engines.new) }
{
    match input(alloc, fields)? {
        Some(input) => row_that_matches(alloc, engines, fields, rows(fields), &input),
        None => Ok(None),
    }
}

// The value of the first row with a pattern that is found in the text.
fn row_that_matches<E: Engines>(
    alloc: Global,
    engines: &mut E,
    fields: &Data,
    rows: &[Data],
    input: &Text,
) -> Result<Option<Data>, ValueEnd>
    ensures value { IfOk result (λ found. option_map tree_of found
        ≡ first_row (λ key. finds (pattern_in (tree_of fields.now) key) input.now)
        (trees_of rows.now)) }
    ensures asks { Asks (patterns_of (tree_of fields.now) (trees_of rows.now))
        result (E.state engines.old) (E.state engines.new) }
{
    for row in rows {
        if matches(alloc, engines, fields, row, input)? {
            return Ok(Some(field(alloc, row, "value")?));
        }
    }
    Ok(None)
}

// Whether the row has a pattern that is found in the text.
fn matches<E: Engines>(
    alloc: Global,
    engines: &mut E,
    fields: &Data,
    row: &Data,
    input: &Text,
) -> Result<bool, ValueEnd>
    ensures answer { IfOk result (λ has. has
        ≡ option_map_or (λ key. finds (pattern_in (tree_of fields.now) (text_of key)) input.now)
        (member_of (codes "key") (tree_of row.now)) false) }
    ensures asks { Asks (row_patterns (tree_of fields.now) (tree_of row.now))
        result (E.state engines.old) (E.state engines.new) }
{
    match member(row, "key") {
        Some(key) => {
            let pattern = pattern(alloc, fields, key)?;
            finds(alloc, engines, &pattern, input)
        },
        None => Ok(false),
    }
}

// The pattern that a row's key is.
fn pattern(alloc: Global, fields: &Data, key: &Data) -> Result<Text, OutOfMemory>
    ensures { IfOk result
        (λ made. made ≡ pattern_in (tree_of fields.now) (text_of (tree_of key.now))) }
{
    let text = text_of(alloc, key)?;
    let mut made = Text::new(alloc);
    if is_set(alloc, fields, "ignoreCase")? {
        made.push_word("(?i)")?;
    }
    push_whole(alloc, fields, &mut made, &text)?;
    Ok(made)
}

// Puts the pattern of a key behind, by itself or for the whole text.
fn push_whole(alloc: Global, fields: &Data, made: &mut Text, key: &Text) -> Result<(), OutOfMemory>
    ensures { OnOk result (made.new ≡ made.old ++ whole_pattern (tree_of fields.now) key.now) }
{
    if is_set(alloc, fields, "fullMatch")? {
        made.push_word("^(?:")?;
        made.push_str(key.as_str())?;
        made.push_word(")$")
    } else {
        made.push_str(key.as_str())
    }
}
