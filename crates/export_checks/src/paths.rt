ghost use Rattle.std.specs.Prelude.{◌≡◌, [], IfOk, option_map};
ghost use Rattle.export_fields.specs.Fault.{in_key, in_index};
ghost use Rattle.export_checks.specs.Repeats.{entry_at};

use export_fields::{index_before, key_before};
use gtm_base::{OutOfMemory, Text};
use std::alloc::Global;

// The path to the item at a place of the list at a key, and on from there.
pub(crate) fn item_path(
    alloc: Global,
    key: &str,
    at: usize,
    path: &Text,
) -> Result<Text, OutOfMemory>
    ensures { IfOk result (λ whole. whole ≡ in_key key.now (in_index at path.now)) }
{
    let item = index_before(alloc, at, path)?;
    key_before(alloc, key, &item)
}

// The path to the member with a key.
pub(crate) fn member_path(alloc: Global, key: &str) -> Result<Text, OutOfMemory>
    ensures { IfOk result (λ whole. whole ≡ in_key key.now []) }
{
    key_before(alloc, key, &Text::new(alloc))
}

// The path to the entry at a place of the list at a key, where there is a place.
pub(crate) fn entry_path(
    alloc: Global,
    key: &str,
    at: Option<usize>,
) -> Result<Option<Text>, OutOfMemory>
    ensures { IfOk result (λ path. path ≡ option_map (entry_at key.now) at) }
{
    match at {
        Some(at) => Ok(Some(item_path(alloc, key, at, &Text::new(alloc))?)),
        None => Ok(None),
    }
}
