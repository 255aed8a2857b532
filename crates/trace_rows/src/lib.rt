//! Tests of `trace_reader` and `trace_forms` from outside, each expected value worked out by hand
//! from the forms of a trace.
//!
//! Each form with its step, bad lines with the least rule that each breaks, values with keys in no
//! order, repeated keys, escapes and the greatest numbers and depths, the greatest length of a
//! line, and what a reader hands out over files that give one byte a read and over files that fail,
//! also behind the end.
#![tactic(auto)]

#[cfg(test)]
mod bad_lines;
#[cfg(test)]
mod bounds;
#[cfg(test)]
mod forms;
#[cfg(test)]
mod reading;
#[cfg(test)]
mod telling;
#[cfg(test)]
mod values;
