ghost use Rattle.std.specs.Prelude.{◌≡◌, OnOk};
ghost use Rattle.data_layer.specs.Merge.{put};
ghost use Rattle.gtm_data.specs.Tree.{tree_of, entries_of};
ghost use Rattle.variable_kinds.specs.Resolved.{chosen};

use gtm_base::{OutOfMemory, Text};
use gtm_data::{Data, Members};
use std::alloc::Global;

/// Which of several parameters with one key counts.
#[derive(Clone, Copy, Debug, PartialEq, Eq)]
pub enum Choice {
    First,
    Last,
}

/// Puts a value at its key: behind the last, where no member has the key, and else in place of the
/// one there, if the last counts.
pub fn put(
    alloc: Global,
    members: &mut Members,
    choice: Choice,
    key: &Text,
    value: Data,
) -> Result<(), OutOfMemory>
    ensures { OnOk result (entries_of members.new.pairs
        ≡ put key.now (chosen choice (tree_of value)) (tree_of value)
        (entries_of members.old.pairs)) }
{
    match members.place_of(key.as_str()) {
        Some(at) => {
            settle(members.value_mut(at), choice, value);
            Ok(())
        },
        None => members.push(key.copy(alloc)?, value),
    }
}

// Puts a value in place of another one, if the last counts.
fn settle(place: &mut Data, choice: Choice, value: Data)
    ensures { tree_of place.new ≡ chosen choice (tree_of value) (tree_of place.old) }
{
    match choice {
        Choice::First => {},
        Choice::Last => *place = value,
    }
}
