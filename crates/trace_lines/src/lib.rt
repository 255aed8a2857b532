//! The lines of an open trace, handed out one at a time.
//!
//! A contract sees a `Lines` as where the reading of a trace stands: the line that was handed out
//! last, the bytes that were read behind it, how many bytes stand before these, and whether the end
//! of the file was met, behind which nothing is read. Where the file tells what it holds, the lines
//! that `next_line` hands out are exactly those of its bytes, one after the other, up to the first
//! that is too long; a read that fails loses no byte, and comes when each line whose LF was read
//! was handed out. What it holds of a trace is never more than one line and one byte, however long
//! the trace is.
#![tactic(auto)]

mod laws;
mod lines;

pub use laws::{lines_hold_no_lf, lines_join_to_the_bytes};
pub use lines::{LineEnd, Lines, MAX_LINE, MAX_TRACE};
