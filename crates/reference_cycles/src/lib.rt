//! The first place of a graph that leads back to itself, in about linear time.
//!
//! A graph is a slice that has for each place, counted from 0, the list of the places it refers to;
//! a reference behind the last place leads nowhere. `first_on_cycle` gives none exactly where no
//! place leads back to itself through one reference or more, and else the least place that does. It
//! asks nothing of the graph, does not recurse over it, and fails only where memory is wanting. The
//! law `references_lead_on` says of all graphs how places lead to one another,
//! `the_closure_has_the_first_cycle` that this is what the closure of a graph computes, and
//! `chains_are_shorter_than_the_graph` that references end where nothing leads back to itself.
#![tactic(auto)]

mod first;
mod graph;
mod laws;
mod levels;
mod reached;
mod search;

pub use first::first_on_cycle;
pub use laws::{
    chains_are_shorter_than_the_graph, references_lead_on, the_closure_has_the_first_cycle,
};
