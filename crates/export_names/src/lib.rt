//! What the names and numbers of an export stand for, and its parameters as those of the model, in
//! which each name is a number.
//!
//! `Known` has the lists of a container by which names become numbers: those of its variables and
//! built-in variables, the types that its templates have, the numbers of its triggers and the names
//! of its tags. In contracts it is those lists, and a name or type leads to the first entry that
//! has it. `trigger_ref` also knows the built-in triggers, and `member_params` gives the members of
//! a group. A text is cut into names in double braces and what stands around them, and `param_of`
//! and `params_of` give exactly the parameters that `specs/` tells. Otherwise only memory can be
//! wanting.
//!
//! Laws say what this means: `a_text_is_cut_whole` tells the pieces of a text among all lists of
//! pieces, `a_parameter_is_turned_by_its_fields` gives a parameter's key and value,
//! `each_name_is_looked_up` says where the names in it come from, and
//! `a_type_finds_the_first_template` which template a type finds.
#![tactic(auto)]

mod found_by;
mod known;
mod laws;
mod members;
mod names;
mod numbers;
mod params;
mod pieces;
mod trigger_numbers;
mod types;
mod values;

pub use found_by::{ById, ByName, FoundBy, texts_of};
pub use known::{Known, known_of};
pub use laws::{
    a_parameter_is_turned_by_its_fields, a_text_is_cut_whole, a_type_finds_the_first_template,
    each_name_is_looked_up,
};
pub use members::{is_group, is_member_list, member_params};
pub use names::{Names, name_ref};
pub use numbers::Numbers;
pub use params::{param_of, params_of};
pub use pieces::pieces_of;
pub use trigger_numbers::{is_never, param_refs, trigger_ref, trigger_refs};
pub use types::{TemplateTypes, TypeTexts, names_of, type_texts};
pub use values::{first_with, values_of, word_text};
