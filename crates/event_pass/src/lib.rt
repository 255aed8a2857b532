//! The pass of an event: which triggers hold in its snapshot, which tags are due, and what the
//! parameters of these are.
//!
//! `pass` gives exactly the model's pass: the triggers that hold, in the order of the export; then
//! the tags that they fire, each once and in the order of the export; and for each of these the
//! Map of its parameters, with the values that the names in them have in the same snapshot.
#![tactic(auto)]

mod params;
mod passing;

pub use passing::{DueTag, DueTags, EventPass, pass};
