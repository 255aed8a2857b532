//! Which tags are fired at an event.
//!
//! `fired` gives exactly the tags of which some firing trigger holds, in the order of the export: a
//! trigger of the container's own that is among those that hold, or the built-in trigger of the
//! event. A tag stands there once, however many of its triggers hold. Only memory can be wanting.
#![tactic(auto)]

mod firing;
mod marks;

pub use firing::{TagRefs, fired};
