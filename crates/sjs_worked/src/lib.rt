//! Worked scripts, token by token: which tree they are, or at which token they are refused.
#![tactic(auto)]

mod laws;

pub use laws::scripts_are_worked;
