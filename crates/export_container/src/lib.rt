//! Turns the entries of an export as they are written into a container of the model, in which each
//! name is a number.
//!
//! `container_of` gives exactly the container that `container_of` of `specs/` tells, entry by
//! entry, or memory was wanting. It judges nothing: a name that nothing has stands for nothing, and
//! a type that is not built is kept as it was written. Each list of the container has fewer than
//! 2^32 entries, so that each place has a number of 32 bits, and each number is a place in the list
//! that it names. Three laws say of whole lists how texts are told each once, that exactly groups
//! have members, and that every number is in range.
#![tactic(auto)]

mod built_ins;
mod conditions;
mod container;
mod laws;
mod references;
mod tags;
mod templates;
mod trigger_kinds;
mod triggers;
mod turns;
mod variables;

pub use container::container_of;
pub use laws::{a_group_is_known_by_its_kind, each_text_is_told_once, every_number_is_in_range};
