//! Whether a template's policy allows what a call needs.
//!
//! `allowed` answers exactly what `is_allowed` of `perm_model` defines, with one clause for each
//! row of the permissions, `first_denied` finds the first need of a call that is not allowed, and
//! `permission_of` names the permission that a need belongs to. None of them takes memory, so each
//! answer is exact. A pattern is read from left to right, in at most as many steps as the pattern
//! has characters for each one of the text. Laws say that fewer grants allow no more, that no need
//! is denied exactly where all are allowed, and what the `*` of a pattern stands for.
#![tactic(auto)]

mod addresses;
mod allowing;
mod fitting;
mod granting;
mod keys;
mod laws;
mod parts;
mod pieces;

pub use allowing::{allowed, first_denied, permission_of};
pub use laws::{
    a_star_before_a_host_is_some_text, a_star_is_any_run, fewer_grants_allow_no_more,
    the_first_denied_is_the_least,
};
