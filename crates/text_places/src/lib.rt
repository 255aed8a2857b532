//! Where a text stands in a list of texts, in about n log n time.
//!
//! `first_repeat` gives the first place whose text stands at an earlier place, and exactly then
//! none where all texts differ. A `Places` is in contracts the list of texts that it was made of,
//! and gives the first place of a text in it. Two laws, `a_repeat_is_the_first` and
//! `a_place_is_the_first`, say of whole lists what the two answers mean.
#![tactic(auto)]

mod laws;
mod places;
mod repeats;

pub use laws::{a_place_is_the_first, a_repeat_is_the_first};
pub use places::Places;
pub use repeats::first_repeat;
