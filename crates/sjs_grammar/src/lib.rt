//! The grammar of scripts.
//!
//! `Reads` of `specs/Grammar.antt` says which tokens are which script: a relation for each line of
//! the grammar, from tokens to those behind what was read, with a clause for each way to write it.
//! A token is a place, whether a line break stands before it, and a kind of `specs/Kinds.antt`. The
//! law says that what is read is formed: each constant has a value, and each `break` and `continue`
//! stands in a loop of its function.
#![tactic(auto)]

mod laws;

pub use laws::what_is_read_is_formed;
