//! What the grammar of scripts reads, the machine takes.
//!
//! The laws: of tokens that are read as a script, the machine puts out the notes of that script;
//! and tokens are read as one script at most.
#![tactic(auto)]

mod laws;

pub use laws::{tokens_are_one_script, what_is_read_is_taken};
