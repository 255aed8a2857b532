//! The world of a page: what is known of it, and its data layer.
//!
//! A `World` takes in the facts of a page, and the messages and command arrays of its data layer.
//! `fact` promises exactly `after_fact` of `specs/`, a clause for each kind of fact; `take` and
//! `command` promise what those of a `Layer` do. Only memory can be wanting, and then the world is
//! spent. Laws say by paths what the setting of a global leaves, and which keys are below another.
#![tactic(auto)]

mod blocking;
mod facts;
mod laws;
mod page;
mod returns;
mod setting;
mod world;

pub use laws::{
    keys_below_go_on_with_a_dot, only_other_values_are_in_the_way, setting_goes_by_paths,
};
pub use page::Page;
pub use returns::Returns;
pub use world::World;
