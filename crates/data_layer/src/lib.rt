//! The data layer: what the messages so far have made.
//!
//! A `Layer` merges each member of a message into its model under the parts of the member's key,
//! and keeps the last value of each whole key; `take` promises exactly `after_message` of `specs/`,
//! `get` exactly `layer_value`. A message that is no Map, or that would nest over 64 deep, changes
//! nothing. A pushed List is a command array: `command` runs its method on a List of the model, and
//! promises exactly `after_command`. Only memory can be wanting, and then the layer is spent.
//! `merge` and `commanded` of `specs/` go by recursion; the laws say what they leave at each path,
//! that no other tree is that, what each whole key has afterwards in version 1, and that nothing
//! here gives a Map a key twice.
#![tactic(auto)]

mod changing;
mod commands;
mod indexes;
mod inside;
mod laws;
mod layer;
mod measuring;
mod merging;
mod methods;
mod nesting;
mod taking;
mod under;

pub use inside::members_of;
pub use laws::{
    commands_go_by_paths, commands_keep_keys_distinct, merge_goes_by_paths,
    merge_keeps_keys_distinct, messages_keep_keys_distinct, paths_determine_the_command,
    paths_determine_the_merge, version_one_keeps_the_last_value,
};
pub use layer::Layer;
pub use nesting::parts as key_parts;
