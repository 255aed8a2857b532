//! What is said of the tokens of a text: that they are a script, or that they are refused.
//!
//! `Holds` of `specs/Verdicts.antt` says what each verdict means: a script that is read and not too
//! deep, a token that no script has there, which is of a form that is left out or is unexpected, or
//! the first node that is too deep. The law: each text has one verdict.
#![tactic(auto)]

mod laws;

pub use laws::each_text_has_one_verdict;
