//! The parts of an address.
//!
//! Each part is what its definition in `specs/` says: the protocol, the host with or without a
//! leading `www.`, the port or the one that the protocol implies, the path, its extension, the
//! query, the first value of one of its keys, the fragment, and a url without its fragment. Only
//! memory can be wanting.
#![tactic(auto)]

mod fronts;
mod parts;
mod values;

pub use parts::{extension, fragment, host, path, port, protocol, query, without_fragment};
pub use values::query_value;
