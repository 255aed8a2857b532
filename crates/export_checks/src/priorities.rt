ghost use Rattle.std.specs.Prelude.{◌≡◌, codes, IfOk};
ghost use Rattle.export_checks.specs.Priorities.{priority_text, tag_priority_fault, priority_fault};

use crate::paths::{item_path, member_path};
use export_entries::{WrittenEntries, WrittenTag};
use export_fields::WrittenParam;
use gtm_base::{OutOfMemory, Text};
use gtm_data::whole_text;
use std::alloc::Global;

/// The path, from the container version, of the first priority of a tag whose text is no whole
/// number from -9007199254740991 to 9007199254740991. A tag without a priority is passed. `None`
/// where each is one. Fails where memory is wanting.
pub fn priority_text(alloc: Global, written: &WrittenEntries) -> Result<Option<Text>, OutOfMemory>
    ensures { IfOk result (λ found. found ≡ priority_text written.now) }
{
    for (at, tag) in written.tags.as_slice().iter().enumerate() {
        if let Some(path) = in_tag(alloc, tag)? {
            let whole = item_path(alloc, "tag", at, &path)?;
            return Ok(Some(whole));
        }
    }
    Ok(None)
}

// The priority of a tag, where it is no whole number.
fn in_tag(alloc: Global, tag: &WrittenTag) -> Result<Option<Text>, OutOfMemory>
    ensures { IfOk result (λ found. found ≡ tag_priority_fault tag.now) }
{
    match &tag.priority {
        Some(param) => in_priority(alloc, param),
        None => Ok(None),
    }
}

// A priority, where it is no whole number.
fn in_priority(alloc: Global, param: &WrittenParam) -> Result<Option<Text>, OutOfMemory>
    ensures { IfOk result (λ found. found ≡ priority_fault param.now) }
{
    if whole_text(param.value.as_str()).is_some() {
        return Ok(None);
    }
    let path = member_path(alloc, "priority")?;
    Ok(Some(path))
}
