//! The forms of `Engines`.
//!
//! `PackEngines` asks the crates `regex` and `url`, whose definitions its answers are, and counts a
//! refusal where they refuse: a pattern for another cause than memory, an address that would be too
//! long. `PlannedEngines` is the same, and refuses the calls that it is told to.
#![tactic(auto)]

mod found;
mod pack;
mod parts;
mod planned;

pub use pack::PackEngines;
pub use planned::PlannedEngines;
