//! The sections of a custom template's text.
//!
//! `cut` takes a text as a first part and then headings with bodies, in order, and gives where the
//! bodies of the five headings lie that are used. It refuses a heading that stands twice, a text
//! without INFO or without the web script, and a text with something before its first heading, in
//! this order, with the place. Otherwise only memory can be wanting. Laws say that a text is taken
//! in one way, and which lines are headings.
#![tactic(auto)]

mod cutting;
mod headings;
mod laws;
mod lines;

pub use cutting::{SectionEnd, Sections, Span, cut};
pub use laws::{a_heading_is_a_framed_name, a_text_is_cut_in_one_way};
