ghost use Rattle.std.specs.Prelude.{◌≡◌, IfOk, option_map, unwrap_or};
ghost use Rattle.gtm_data.specs.Tree.{tree_of, trees_of};
ghost use Rattle.variable_kinds.specs.Fields.{default_of, input_of, items_in, rows_of};

use crate::reading::{default_of, field, is_undefined, member};
use gtm_base::{OutOfMemory, Text};
use gtm_data::{Data, text_of};
use std::alloc::Global;

/// The rows of the table.
pub fn rows<'b>(fields: &'b Data) -> &'b [Data]
    ensures { trees_of result.now ≡ rows_of (tree_of fields.now) }
{
    match member(fields, "map") {
        Some(table) => items_in(table),
        None => &[],
    }
}

// The items of a List; another value has none.
fn items_in(value: &Data) -> &[Data]
    ensures { trees_of result.now ≡ items_in (tree_of value.now) }
{
    match value {
        Data::List(items) => items.as_slice(),
        _ => &[],
    }
}

/// The text of the input, or `None` where that is Undefined.
pub fn input(alloc: Global, fields: &Data) -> Result<Option<Text>, OutOfMemory>
    ensures { IfOk result (λ made. made ≡ input_of (tree_of fields.now)) }
{
    let input = field(alloc, fields, "input")?;
    if is_undefined(&input) {
        return Ok(None);
    }
    Ok(Some(text_of(alloc, &input)?))
}

/// The value of a found row, or what stands for a missing one.
pub fn or_none(alloc: Global, fields: &Data, found: Option<Data>) -> Result<Data, OutOfMemory>
    ensures { IfOk result (λ made.
        tree_of made ≡ unwrap_or (option_map tree_of found) (default_of (tree_of fields.now))) }
{
    match found {
        Some(value) => Ok(value),
        None => default_of(alloc, fields),
    }
}
