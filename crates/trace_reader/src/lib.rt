//! Hands out the steps of an open trace one at a time.
//!
//! A trace is lines of JSON, each an object of one form. `Reader::next_step` hands out the steps
//! that the definition `trace_of` of `specs/` tells, in their order, before it reads on: it ends at
//! the first bad line with the least rule that this line breaks, at the end of the trace, or where
//! the file cannot be read, when the steps of all lines whose LF was read were handed out. After an
//! error it answers the same again and reads nothing. Otherwise only memory can be wanting.
#![tactic(auto)]

mod reader;

pub use reader::{Reader, TraceEnd};
pub use trace_lines::{MAX_LINE, MAX_TRACE};
