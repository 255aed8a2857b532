//! Which triggers hold at an event.
//!
//! `holds` says whether a condition holds of the values of its two sides, and `Index::holding`
//! which triggers of a container hold at an event, in the order of the export: exactly those whose
//! kind fits the event and all of whose conditions hold. The index finds the triggers that fit by
//! the event's name, so that an event's cost does not grow with the triggers of other events.
//! Engines may refuse a pattern; otherwise only memory can be wanting.
#![tactic(auto)]

mod comparing;
mod condition;
mod fitting;
mod index;
mod merging;
mod texts;
mod triggers;

pub use condition::holds;
pub use index::{Index, TriggerIds};
