//! What kind of token a reserved word and a sign are, by their text.
//!
//! `kind_of_word` and `kind_of_sign` of `specs/TextKinds.antt` are the tables. The law: the kind of
//! a word is written as the word, and kinds count as left out exactly where the tables of words and
//! signs say so.
#![tactic(auto)]

mod laws;

pub use laws::words_and_signs_have_kinds;
