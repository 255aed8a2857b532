//! The fields of a custom template.
//!
//! `is_tag` tells from INFO whether a template is one of tags or of variables, and `fields_in` gives
//! its fields from its parameters, those below an object directly behind it, of two with one name
//! the first. `read_fields` gives both, and refuses INFO, and then the parameters, exactly where
//! they have not the form.
//! `fields_of` gives, of resolved parameters, exactly the members whose keys are fields, in the
//! order of the fields. Otherwise only memory can be wanting.
#![tactic(auto)]

mod choosing;
mod fields;
mod firsts;
mod forms;

pub use choosing::fields_of;
pub use fields::{FieldsEnd, fields_in, read_fields};
pub use forms::is_tag;
