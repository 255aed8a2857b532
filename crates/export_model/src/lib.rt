//! A container as it runs: plain data, in which every name is a number.
//!
//! All fields are public. `Sound` of `specs/` says what holds of a container that was read: each of
//! its lists has fewer than 2^32 items, which `has_small_lists` tells; its numbers are below the
//! lengths of the lists that they name, templates are used as what they are, and nothing refers to
//! itself. A contract sees a parameter as its `param_of`, a tree of plain numbers, texts and lists.
//! `first_of_key` gives the first parameter with a key, and its law says so of all lists.
//! `variable_graph` and `group_graph` tell which variables name which, and which groups have which
//! triggers as members; `named_by_variable` and `named_by_value` tell it of one variable and of the
//! value of one parameter.
#![tactic(auto)]

mod conditions;
mod container;
mod graphs;
mod keys;
mod laws;
mod names;
mod params;
mod small;
mod tags;
mod templates;
mod triggers;
mod variables;

pub use conditions::{Condition, Conditions, Op};
pub use container::Container;
pub use graphs::{group_graph, named_by_value, named_by_variable, variable_graph};
pub use keys::first_of_key;
pub use laws::a_key_finds_its_first_parameter;
pub use params::{NameRef, Param, ParamValue, Params, Piece, Pieces};
pub use small::has_small_lists;
pub use tags::{FiringOption, Sequence, Tag, TagKind, Tags};
pub use templates::{FieldName, FieldNames, Template, Templates};
pub use triggers::{Trigger, TriggerKind, TriggerRef, TriggerRefs, Triggers};
pub use variables::{BuiltIn, BuiltIns, Format, Variable, VariableKind, Variables};
