//! The policy of a template's permissions.
//!
//! `read_policy` reads the list of permissions of a custom template. It gives the grants in the
//! order of the list, one for each row, name or pattern, exactly by `policy_read` of `specs/`, with
//! a warning for each permission, word, row and pattern that is not known and so grants nothing. It
//! refuses the list exactly where it has not the form of one. Otherwise only memory can be wanting.
//! Laws say which texts are patterns.
#![tactic(auto)]

mod items;
mod laws;
mod parts;
mod patterns;
mod permissions;
mod policy;
mod reading;
mod values;

pub use laws::{a_pattern_is_kept_as_written, a_prefix_ends_before_the_star};
pub use policy::{PolicyEnd, read_policy};
