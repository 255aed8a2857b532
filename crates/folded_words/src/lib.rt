//! Words that are the same without their underscores and whatever the case of their ASCII letters.
//!
//! `folded` gives a text without its underscores and with its ASCII letters in lower case, and
//! `is_folded` tells whether that is a given word; otherwise only memory can be wanting. `among` of
//! `specs/` is what a closed table of words says of one.
#![tactic(auto)]

mod words;

pub use words::{folded, is_folded};
