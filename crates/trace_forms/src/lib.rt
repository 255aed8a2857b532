//! Reads a line of a trace: what it asks for, or the least rule that it breaks.
//!
//! `read_line` gives exactly the `line_of` of `specs/Lines.antt`: nothing for a line of blanks, the
//! step of a JSON text of one of the forms of `specs/Forms.antt`, and else the number of the least
//! rule that the line breaks. Otherwise only memory can be wanting. Two laws say what a form is:
//! `forms_ask_for_steps` has each of them with the step that it asks for, and by
//! `steps_have_the_keys_of_their_form` a line's keys tell its form, so that it has one at most.
#![tactic(auto)]

mod arguments;
mod endings;
mod facts;
mod forms;
mod kinds;
mod laws;
mod lines;
mod pages;
mod steps;

pub use laws::{forms_ask_for_steps, steps_have_the_keys_of_their_form};
pub use lines::read_line;
pub use steps::{LineRead, TraceStep};
