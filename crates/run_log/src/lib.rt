//! The log: what each of its lines is, and how a line is written.
//!
//! `put_line` hands the exact text of a line to a sink by one `put`, so a run's text is that of its
//! lines.
#![tactic(auto)]

mod line;
mod writing;

pub use line::Line;
pub use writing::{LineEnd, put_line};
