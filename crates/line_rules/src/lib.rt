//! A law of the lines of a trace: which rule the value of a line breaks by its form.
#![tactic(auto)]

mod laws;

pub use laws::bad_forms_break_one_rule;
