//! The rules of an export over its entries as they are written.
//!
//! `duplicate_id` and `duplicate_name` look for what stands twice; `unknown_trigger`,
//! `unknown_sequence_tag` and `unknown_template` for a reference that leads nowhere;
//! `priority_text` for a priority that is no whole number; `section_repeated`, `section_missing`,
//! `text_before`, `info_form`, `fields_form` and `permissions_form` for a template whose text has
//! not the form of one; `table_value` for a parameter that is no table where the template has one;
//! and `not_built` for an entry that is not run yet. Each tells exactly the path of the first one,
//! from the container version, or `None` where there is none, and only memory can be wanting. A law
//! says that the path goes to the first item of a list that has a fault. Each takes about n log n
//! time.
#![tactic(auto)]

mod laws;
mod numbers;
mod paths;
mod priorities;
mod repeats;
mod sequences;
mod tables;
mod templates;
mod texts;
mod triggers;
mod unbuilt;

pub use laws::the_first_item_that_breaks_tells_it;
pub use priorities::priority_text;
pub use repeats::{duplicate_id, duplicate_name};
pub use sequences::unknown_sequence_tag;
pub use tables::table_value;
pub use templates::{TemplateUse, unknown_template};
pub use texts::{
    TextPlace, fields_form, info_form, permissions_form, section_missing, section_repeated,
    text_before,
};
pub use triggers::unknown_trigger;
pub use unbuilt::not_built;
