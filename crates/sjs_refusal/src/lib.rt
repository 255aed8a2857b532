//! Which tokens begin a script, and at which token the others are refused.
//!
//! The laws: the machine gets behind exactly the tokens with which some script begins; and tokens
//! up to the end of the text are read as a script, or they are refused at the first token that no
//! script has there, at one place and in one way, and not both.
#![tactic(auto)]

mod laws;

pub use laws::{the_machine_goes_as_far_as_scripts_do, tokens_are_read_or_refused};
