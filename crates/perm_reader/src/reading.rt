ghost use Rattle.std.specs.Prelude.{◌≡◌, IfOk, OnOk, IsTrue, option_map};
ghost use Rattle.gtm_base.specs.Ascii.{is_all_ascii};
ghost use Rattle.gtm_data.specs.Tree.{tree_of, trees_of};
ghost use Rattle.perm_reader.specs.Readings.{plus, granting, warning, warned, by_found, each};
ghost use Rattle.perm_reader.specs.Readings.{items_read, word_of, worded};

use crate::items::{Found, ItemKind, found_in, item_called};
use crate::values::{called, is_text, list_value, param, text_value};
use gtm_base::{OutOfMemory, Text, Texts};
use gtm_data::Data;
use perm_model::{Grant, Grants};
use std::alloc::Global;

/// What was read so far: the grants, and the texts of the warnings.
#[derive(Drop)]
pub(crate) struct Reading {
    pub(crate) grants: Grants,
    pub(crate) warnings: Texts,
}

/// The word of a parameter.
#[derive(Clone, Copy)]
pub(crate) enum Word {
    Any,
    /// Also where the parameter is absent.
    Specific,
    Unknown,
}

pub(crate) fn grant(out: &mut Reading, granted: Grant) -> Result<(), OutOfMemory>
    ensures { OnOk result (out.new ≡ plus out.old (granting granted)) }
{
    out.grants.push(granted)
}

pub(crate) fn warn(out: &mut Reading, text: Text) -> Result<(), OutOfMemory>
    ensures { OnOk result (out.new ≡ plus out.old (warning text)) }
{
    out.warnings.push(text)
}

// Warns of a value, where there is one.
pub(crate) fn warn_of(
    alloc: Global,
    out: &mut Reading,
    value: Option<&Data>,
) -> Result<(), OutOfMemory>
    ensures { OnOk result
        (out.new ≡ plus out.old (warned (option_map (λ v. tree_of v.now) value.entry))) }
{
    match value {
        Some(value) => warn(out, called(alloc, value)?),
        None => Ok(()),
    }
}

// The items of a list, each read as this kind.
pub(crate) fn read_items(
    alloc: Global,
    out: &mut Reading,
    kind: ItemKind,
    value: Option<&Data>,
) -> Result<(), OutOfMemory>
    ensures { OnOk result
        (out.new ≡ plus out.old (items_read kind (option_map (λ v. tree_of v.now) value.entry))) }
{
    match value {
        Some(value) => match list_value(value) {
            Some(items) => read_each(alloc, out, kind, items),
            None => warn(out, item_called(alloc, kind, value)?),
        },
        None => Ok(()),
    }
}

fn read_each(
    alloc: Global,
    out: &mut Reading,
    kind: ItemKind,
    items: &[Data],
) -> Result<(), OutOfMemory>
    ensures { OnOk result (out.new ≡ plus out.old (each kind (trees_of items.now))) }
{
    for item in items {
        read_item(alloc, out, kind, item)?;
    }
    Ok(())
}

fn read_item(
    alloc: Global,
    out: &mut Reading,
    kind: ItemKind,
    item: &Data,
) -> Result<(), OutOfMemory>
    ensures { OnOk result (out.new ≡ plus out.old (by_found kind (tree_of item.now))) }
{
    match found_in(alloc, kind, item)? {
        Found::Unknown => warn(out, item_called(alloc, kind, item)?),
        Found::Nothing => Ok(()),
        Found::Granted(granted) => grant(out, granted),
    }
}

pub(crate) fn word_of(value: Option<&Data>) -> Word
    ensures { result ≡ word_of (option_map (λ v. tree_of v.now) value.entry) }
{
    match value {
        Some(value) => {
            let text = text_value(value);
            if is_text(text, "any") {
                return Word::Any;
            }
            if is_text(text, "specific") {
                Word::Specific
            } else {
                Word::Unknown
            }
        },
        None => Word::Specific,
    }
}

// A word, and a list that is read where the word is `specific`.
pub(crate) fn read_worded(
    alloc: Global,
    out: &mut Reading,
    word: Option<&Data>,
    any: Grant,
    kind: ItemKind,
    list: Option<&Data>,
) -> Result<(), OutOfMemory>
    ensures { OnOk result (out.new ≡ plus out.old
        (worded any kind (option_map (λ v. tree_of v.now) word.entry)
        (option_map (λ v. tree_of v.now) list.entry))) }
{
    match word_of(word) {
        Word::Any => grant(out, any),
        Word::Specific => read_items(alloc, out, kind, list),
        Word::Unknown => warn_of(alloc, out, word),
    }
}
