//! Tests that cross the crates: worked runs with their exact output, and each call once with ample
//! memory.
//!
//! The clauses of `run_over` are those of `replay` over files and sinks in memory, so that its
//! premises are seen to be met.
#![tactic(auto)]

mod running;

pub use running::{Failing, NONE, Ran, run_over};

#[cfg(test)]
mod calls;
#[cfg(test)]
mod commands;
#[cfg(test)]
mod failures;
#[cfg(test)]
mod faults;
#[cfg(test)]
mod merges;
#[cfg(test)]
mod outside;
#[cfg(test)]
mod pages;
#[cfg(test)]
mod rows;
#[cfg(test)]
mod slow;
