//! Reads an export: its container, or the first rule that it breaks.
//!
//! `read_export` is refused exactly by the least rule that `export_rules` of `specs/` says is
//! broken, at that rule's first path; each rule is defined by itself, on the whole JSON tree and on
//! whole lists. Else it gives exactly the container that the export stands for, which is `Sound`:
//! each number in it is in range, and nothing refers to itself. The last rule refuses the entries
//! that are not run yet. Otherwise only memory can be wanting.
#![tactic(auto)]

mod contexts;
mod cycles;
mod entries;
mod laws;
mod loading;
mod paths;
mod texts;
mod top;
mod versions;

pub use laws::the_first_broken_rule_is_the_least;
pub use loading::{Loaded, read_export};
pub use top::{ExportEnd, MAX_EXPORT};
