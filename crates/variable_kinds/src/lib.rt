//! The values of variables by their kinds.
//!
//! `Names` says what names stand for: the parts of a moment, and the values of variables as far as
//! they are kept. `name_value` gives the value of a name and `resolved` that of a parameter with
//! the names in it. A variable's parameters become its fields by `fields_by`, from which `of_kind`
//! takes its value by its kind, and `formatted` changes that as its format says. Each is exactly
//! its definition in `specs/`. Engines may refuse a pattern or an address; otherwise only memory
//! can be wanting. A kind that enters a template has no value here.
#![tactic(auto)]

mod addresses;
mod asking;
mod built_ins;
mod components;
mod formats;
mod inputs;
mod kinds;
mod laws;
mod members;
mod names;
mod naming;
mod own_fields;
mod reading;
mod resolving;
mod sources;
mod tables;
mod value_end;

pub use asking::finds;
pub use components::{Component, Wanted};
pub use formats::formatted;
pub use kinds::of_kind;
pub use laws::{
    a_found_row_is_the_first, only_texts_change_their_case, values_depend_on_their_names,
};
pub use members::Choice;
pub use names::Names;
pub use naming::name_value;
pub use own_fields::fields_by;
pub use resolving::resolved;
pub use value_end::ValueEnd;
