//! The values of variables at an event.
//!
//! A `Values` serves one moment: a container, the world, and the name of an event. `value` gives
//! the value of a name and `resolve` that of a parameter, whatever was asked before, exactly as
//! `specs/` means it; each variable is computed once and kept, on a stack of work that is no
//! recursion, so that no chain of variables is too long. Variables of custom templates are entered
//! by a `TemplateCaller`, once each. Engines may refuse a text that the snapshot may ask them;
//! otherwise only memory can be wanting, and then a `Values` is spent.
//!
//! The law `each_variable_has_the_value_of_its_kind` says by which a reader knows the values, with
//! no depth in sight.
#![tactic(auto)]

mod answering;
mod beginning;
mod caller;
mod computing;
mod entering;
mod filling;
mod keeping;
mod knowing;
mod laws;
mod stacking;
mod values;

pub use caller::TemplateCaller;
pub use laws::{a_name_of_nothing_is_undefined, each_variable_has_the_value_of_its_kind};
pub use values::Values;
pub use variable_kinds::ValueEnd;
