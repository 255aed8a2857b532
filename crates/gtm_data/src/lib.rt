//! The data of messages, cookies and page globals, as trees.
//!
//! A contract sees a value as its `tree_of`, of plain numbers, texts and lists. `from_json` gives
//! the data of a JSON tree exactly where its numbers are whole and in range and it nests at most 64
//! deep, and else names the first fault; `data_of` and `member_or_data_of` give the same of a JSON
//! text. `json_text`,
//! `write_json`, `write_quoted` and `text_of` write exactly the texts of `specs/`, `copy` gives an
//! equal value, `member` and `get` find exactly what stands at a key or path, and `whole_text`
//! reads exactly the whole numbers in range. Otherwise only memory can be wanting. No Map has a key
//! twice: `keys_are_distinct`. What a path is follows from `dotted_texts_are_their_parts` and
//! `get_goes_by_steps`.
#![tactic(auto)]

mod copying;
mod data;
mod facts;
mod json_texts;
mod laws;
mod limits;
mod numbers;
mod parsing;
mod printing;
mod reading;
mod refusing;
mod texts;
mod walking;

pub use copying::copy;
pub use data::{Data, Items, Members};
pub use facts::PageFact;
pub use json_texts::{TextData, data_of, json_of, member_or_data_of};
pub use laws::{
    data_is_plain_exactly_where_it_is_shallow, dotted_texts_are_their_parts, get_goes_by_steps,
    keys_are_distinct,
};
pub use limits::MAX_DEPTH;
pub use numbers::{whole_of, whole_text};
pub use printing::{json_text, write_json, write_quoted};
pub use reading::{DataEnd, check_json, from_json};
pub use texts::text_of;
pub use walking::get;
