//! The command: the replay of a trace over a container export.
//!
//! `replay` promises the status, what was printed by then, which files were opened and how far they
//! were read, and the line on standard error. They are those of a model: the first rule that the
//! export's bytes break and the container that they stand for (`export_reader`), the trace of the
//! trace's bytes (`trace_reader`), and the run of the container over its steps (`replay_engine`).
//! What is promised of the words `run EXPORT TRACE` is the record `Replays` (`specs/Replays.antt`).
#![tactic(auto)]

mod command;
mod export_file;
mod failures;
mod report;
mod trace_run;
mod words;

pub use command::replay;
