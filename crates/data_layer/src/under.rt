ghost use Rattle.std.specs.Prelude.{◌≡◌, ◌<◌, [], ◌∷◌, length, IfSome, IfNone, OnOk};
ghost use Rattle.std.specs.Str.{chars};
ghost use Rattle.gtm_data.specs.Paths.{dotted};
ghost use Rattle.gtm_data.specs.Tree.{tree_of, entries_of, object};
ghost use Rattle.data_layer.specs.Layer.{nest};
ghost use Rattle.data_layer.specs.Merge.{merge, put};

use crate::inside::members_of;
use crate::merging::merge_member;
use crate::nesting::nested;
use gtm_base::{OutOfMemory, Text};
use gtm_data::{Data, Members};
use memchr::memchr;
use std::alloc::Global;

/// Merges a value under the parts of a key, as if it were nested in Maps under them. Where memory
/// is wanting, the model is left half merged.
#[cycle(under)]
pub fn merge_under(
    alloc: Global,
    key: &str,
    value: &Data,
    model: &mut Data,
) -> Result<(), OutOfMemory>
    ensures { OnOk result
        (tree_of model.new
        ≡ merge (nest (dotted (chars key.now)) (tree_of value.now)) (tree_of model.old)) }
{
    match members_of(model) {
        Some(members) => merge_within(alloc, key, value, members),
        None => overwrite(alloc, key, value, model),
    }
}

fn overwrite(alloc: Global, key: &str, value: &Data, model: &mut Data) -> Result<(), OutOfMemory>
    ensures { OnOk result (tree_of model.new ≡ nest (dotted (chars key.now)) (tree_of value.now)) }
{
    *model = nested(alloc, key, value)?;
    Ok(())
}

// The same for the members of a Map.
#[cycle(under)]
fn merge_within(
    alloc: Global,
    key: &str,
    value: &Data,
    model: &mut Members,
) -> Result<(), OutOfMemory>
    ensures { OnOk result
        (object (entries_of model.new.pairs)
        ≡ merge (nest (dotted (chars key.now)) (tree_of value.now))
        (object (entries_of model.old.pairs))) }
{
    match cut(key) {
        Some((part, rest)) => merge_below(alloc, part, rest, value, model),
        None => merge_member(alloc, key, value, model),
    }
}

// Merges a value into the one at a part, under the rest of the key, or puts it last, nested under
// the rest.
#[cycle(under)]
fn merge_below(
    alloc: Global,
    part: &str,
    rest: &str,
    value: &Data,
    model: &mut Members,
) -> Result<(), OutOfMemory>
    ensures { let inner = nest (dotted (chars rest.now)) (tree_of value.now) in
        OnOk result
        (entries_of model.new.pairs
        ≡ put (chars part.now) (merge inner) inner (entries_of model.old.pairs)) }
{
    match model.place_of(part) {
        Some(at) => merge_under(alloc, rest, value, model.value_mut(at)),
        None => model.push(Text::from_str(alloc, part)?, nested(alloc, rest, value)?),
    }
}

// The first part of a key and the text of the others, if there are others.
fn cut(key: &str) -> Option<(&str, &str)>
    ensures parts { IfSome result
        (λ found. dotted (chars key.now) ≡ chars found.0.now ∷ dotted (chars found.1.now)) }
    ensures shorter { IfSome result (λ found. length found.1.now < length key.now) }
    ensures last { IfNone result (dotted (chars key.now) ≡ chars key.now ∷ []) }
{
    // Most keys have no dot, and this sees it sooner.
    let _dot = memchr(b'.', key.as_bytes())?;
    key.split_once('.')
}
