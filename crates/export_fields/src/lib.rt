//! Reads fields of JSON objects, each of its kind, or tells the first field of another kind.
//!
//! Of a JSON tree each reader has one fault, which is none or the JSON pointer to the first field
//! that is wanting or of another kind, and one value. `Ok` comes only where there is no fault and
//! gives that value; `Broken` gives that fault, seen from the value that was handed in; otherwise
//! only memory was wanting. A fault of several fields is the first of theirs, in the order of
//! reading. Keys are words without `~` and `/`, which need no escape in a JSON pointer.
#![tactic(auto)]

mod fault;
mod fields;
mod laws;
mod lists;
mod numbers;
mod objects;
mod params;
mod words;

pub use fault::{ReadEnd, broken_at, broken_here, in_index, in_key, index_before, key_before};
pub use fields::{flag, object, required_text, text};
pub use laws::{parameters_are_read_by_fields, the_first_item_with_a_fault_tells_it};
pub use lists::{Entry, list_of, texts};
pub use numbers::whole_at;
pub use objects::{object_at, single_at};
pub use params::{ParamKind, WrittenParam, WrittenParams, param_at, params_at};
pub use words::{WordList, word};
