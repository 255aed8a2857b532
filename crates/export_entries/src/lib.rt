//! The entries of an export as they are written: names are texts, and parameters keep their kinds.
//!
//! `read_entries` gives all of a container version exactly where each of its fields has its kind,
//! and else the path of the first one that has another: the definitions `entries_fault` and
//! `written_entries` of `specs/` say, field by field, what is looked at and what an entry is.
//! Otherwise only memory can be wanting. Fields that are not named are read past.
#![tactic(auto)]

mod conditions;
mod entries;
mod formats;
mod tags;
mod templates;
mod triggers;
mod turns;
mod variables;

pub use conditions::{WrittenCondition, WrittenConditions};
pub use entries::{WrittenContainer, WrittenEntries, read_entries};
pub use formats::{WrittenCase, WrittenFormat};
pub use tags::{WrittenTag, WrittenTags};
pub use templates::{WrittenTemplate, WrittenTemplates};
pub use triggers::{WrittenTrigger, WrittenTriggers};
pub use turns::{
    ConsentStatus, WrittenConsent, WrittenOption, WrittenSetup, WrittenTeardown, WrittenTurn,
};
pub use variables::{WrittenBuiltIn, WrittenBuiltIns, WrittenVariable, WrittenVariables};
