//! Laws of the paths of faults: a path leads to the value that has the fault.
#![tactic(auto)]

mod laws;

pub use laws::{faults_lie_at_their_paths, paths_lead_to_their_values};
