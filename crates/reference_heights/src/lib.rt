//! How high the places of a graph stand in which nothing leads back to itself.
//!
//! `along` of `specs/` gives each place something by a step from what those places have that it
//! refers to, and `height` is the number that it gives by one more than the greatest. The law
//! `references_lead_lower` says that each reference leads to a lower place, and that no place
//! stands higher than the graph has places, and one more.
#![tactic(auto)]

mod laws;

pub use laws::references_lead_lower;
