//! What the texts of an export's custom templates are read as: one reading for each template, by
//! its text alone.
//!
//! `read_templates` gives the readings in the order of the templates. A reading says why its text
//! has no sections, or else what its INFO, its parameters and its permissions are, each by itself,
//! exactly as `reading_of` of `specs/` says. The rules over templates, those over their uses, and
//! the container look into this list. Only memory can be wanting.
#![tactic(auto)]

mod parts;
mod readings;

pub use parts::{Permissions, TemplateParts};
pub use readings::{SectionFault, TemplateReading, TemplateReadings, read_templates};
