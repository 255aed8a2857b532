//! The machine that reads scripts, and the trees that its notes build.
//!
//! A stack says what is expected; a table, `act` of `specs/Table.antt`, says what is done at each
//! expected symbol and each kind of token, with one token in view; `run` of `specs/Runs.antt` puts
//! out a flat list of notes, each node behind its parts. `built` of `specs/Built.antt` makes trees
//! of notes, and is defined on all of them. The law says that the notes of a tree build that tree.
#![tactic(auto)]

mod laws;

pub use laws::notes_build_their_script;
