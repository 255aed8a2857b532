//! What the machine takes is a script.
//!
//! The law: where the machine takes all tokens, the grammar reads them as a script, and what was
//! put out are the notes of that script.
#![tactic(auto)]

mod laws;

pub use laws::what_is_taken_is_read;
