//! The event model, run step by step.
//!
//! `Engine` runs the steps of a trace over a container and writes the lines of each before it takes
//! the next: `start` the warnings, `step` the lines of a step's jobs, `close` the closing lines.
//! What it writes, and where it then stands, are those of `specs/`: `Jobs` says what waits, which
//! job is next and what each does, and `Run` what the steps do one after the other. A step that
//! needs more than `MAX_JOBS` jobs ends the run. After any error the engine has ended, and answers
//! the same for good.
#![tactic(auto)]

mod engine;
mod event_model;
mod facts;
mod laws;
mod limits;
mod lines;
mod messages;
mod run_end;
mod waiting;

pub use engine::Engine;
pub use laws::{a_page_is_initialised_once, a_run_is_its_steps, runs_go_on};
pub use limits::{MAX_JOBS, MAX_STEPS};
pub use run_end::RunEnd;
