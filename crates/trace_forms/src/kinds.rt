ghost use Rattle.std.specs.Prelude.{◌≡◌, IfOk};
ghost use Rattle.gtm_data.specs.Tree.{tree_of, trees_of, whole, text_in};
ghost use Rattle.trace_forms.specs.Forms.{counted_in, truth_in, texts_in};

use gtm_base::{OutOfMemory, Text, Texts};
use gtm_data::{Data, Items};
use std::alloc::Global;

// The text that the value is.
pub(crate) fn into_text(value: Data) -> Option<Text>
    ensures { result ≡ text_in (tree_of value) }
{
    match value {
        Data::Text(text) => Some(text),
        _ => None,
    }
}

// The texts of the items, where all are texts.
pub(crate) fn texts_in(alloc: Global, items: Items) -> Result<Option<Texts>, OutOfMemory>
    ensures { IfOk result (λ found. found ≡ texts_in (trees_of items)) }
{
    let mut left = items;
    let mut texts = Texts::new(alloc);
    while let Some(item) = left.pop() {
        match into_text(item) {
            Some(text) => texts.push(text)?,
            None => return Ok(None),
        }
    }
    texts.reverse();
    Ok(Some(texts))
}

// The whole number from 1 on that the value is.
pub(crate) fn counted_in(value: &Data) -> Option<u64>
    ensures { result ≡ counted_in (tree_of value.now) }
{
    match value {
        Data::Whole(number) => counted(*number),
        _ => None,
    }
}

// The number, where it is 1 or more.
fn counted(number: i64) -> Option<u64>
    ensures { result ≡ counted_in (whole number) }
{
    if number >= 1 {
        Some(number as u64)
    } else {
        None
    }
}

// The truth that the value is.
pub(crate) fn truth_in(value: &Data) -> Option<bool>
    ensures { result ≡ truth_in (tree_of value.now) }
{
    match value {
        Data::Bool(truth) => Some(*truth),
        _ => None,
    }
}
