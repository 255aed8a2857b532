ghost use Rattle.std.specs.Prelude.{◌≡◌, codes, IfOk, None};
ghost use Rattle.std.specs.Option.{option_map_or};
ghost use Rattle.export_names.specs.Lists.{lists_of};
ghost use Rattle.export_checks.specs.FirstFault.{list_fault};
ghost use Rattle.export_checks.specs.UnknownTags.{unknown_sequence_tag, tag_sequence_fault};
ghost use Rattle.export_checks.specs.UnknownTags.{name_fault};

use crate::paths::{item_path, member_path};
use export_entries::{WrittenEntries, WrittenSetup, WrittenTag, WrittenTags, WrittenTeardown};
use export_names::{Known, Numbers};
use gtm_base::{OutOfMemory, Text};
use std::alloc::Global;

/// The path, from the container version, of the first name of a setup or teardown tag that no tag
/// has: of each tag, that of its setup tag before that of its teardown tag. The names are looked up
/// in the lists of these entries. `None` where a tag has each name. Fails where memory is wanting.
pub fn unknown_sequence_tag(
    alloc: Global,
    known: &Known,
    written: &WrittenEntries,
) -> Result<Option<Text>, OutOfMemory>
    requires { known.now ≡ lists_of written.now }
    ensures { IfOk result (λ found. found ≡ unknown_sequence_tag written.now) }
{
    in_tags(alloc, &known.tags, &written.tags)
}

// The first unknown name of a tag.
fn in_tags(alloc: Global, names: &Numbers, tags: &WrittenTags) -> Result<Option<Text>, OutOfMemory>
    ensures { IfOk result
        (λ found. found ≡ list_fault (codes "tag") (tag_sequence_fault names.now) tags.now) }
{
    for (at, tag) in tags.as_slice().iter().enumerate() {
        if let Some(path) = in_tag(alloc, names, tag)? {
            let whole = item_path(alloc, "tag", at, &path)?;
            return Ok(Some(whole));
        }
    }
    Ok(None)
}

// The first unknown name of this tag: that of its setup tag, then that of its teardown tag.
fn in_tag(alloc: Global, names: &Numbers, tag: &WrittenTag) -> Result<Option<Text>, OutOfMemory>
    ensures { IfOk result (λ found. found ≡ tag_sequence_fault names.now tag.now) }
{
    let setup = in_setup(alloc, names, &tag.turn.setup)?;
    if setup.is_some() {
        return Ok(setup);
    }
    in_teardown(alloc, names, &tag.turn.teardown)
}

// The name of the setup tag, where it is unknown.
fn in_setup(
    alloc: Global,
    names: &Numbers,
    setup: &Option<WrittenSetup>,
) -> Result<Option<Text>, OutOfMemory>
    ensures { IfOk result
        (λ found. found
        ≡ option_map_or (λ setup. name_fault names.now (codes "setupTag") setup.tag) setup.now
        None) }
{
    match setup {
        Some(setup) => in_name(alloc, names, "setupTag", &setup.tag),
        None => Ok(None),
    }
}

// The name of the teardown tag, where it is unknown.
fn in_teardown(
    alloc: Global,
    names: &Numbers,
    teardown: &Option<WrittenTeardown>,
) -> Result<Option<Text>, OutOfMemory>
    ensures { IfOk result
        (λ found. found
        ≡ option_map_or (λ teardown. name_fault names.now (codes "teardownTag") teardown.tag)
        teardown.now None) }
{
    match teardown {
        Some(teardown) => in_name(alloc, names, "teardownTag", &teardown.tag),
        None => Ok(None),
    }
}

// The name in the one entry of the list at a key, where it is unknown.
fn in_name(
    alloc: Global,
    names: &Numbers,
    key: &str,
    name: &Text,
) -> Result<Option<Text>, OutOfMemory>
    ensures { IfOk result (λ found. found ≡ name_fault names.now key.now name.now) }
{
    if names.number(name).is_some() {
        return Ok(None);
    }
    let field = member_path(alloc, "tagName")?;
    let whole = item_path(alloc, key, 0, &field)?;
    Ok(Some(whole))
}
