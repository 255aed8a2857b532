//! How deep the nodes of a script stand, and one pass that finds what is too deep.
//!
//! `too_deep_at` of `specs/Depth.antt` is the place of the first node with 100 nodes above it. The
//! law: one pass over the notes of a script, with no recursion, finds the places of all nodes that
//! stand so deep, and no others.
#![tactic(auto)]

mod laws;

pub use laws::one_pass_finds_what_is_too_deep;
