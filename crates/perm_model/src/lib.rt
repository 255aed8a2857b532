//! What templates may do and how their scripts end, as plain data.
//!
//! A `Policy` is a list of grants, and a call of a script has `Need`s. `specs/` says which grant
//! allows which need, how a pattern is set against an address, and which permission a need belongs
//! to. The tables of the permissions' words and of the calls are read by `Permission::name`,
//! `permission_named`, `api_named`, `api_name` and `callback_place`, each exactly; laws say that no
//! word and no name stands in them twice. How an entry into a script ends is an `Outcome`, and a
//! host's answer to a call a `HostAnswer`.
#![tactic(auto)]

mod apis;
mod endings;
mod faults;
mod grants;
mod laws;
mod needs;
mod permissions;

pub use apis::{APIS, ApiId, api_name, api_named, callback_place};
pub use endings::{EntryError, HostAnswer, Outcome};
pub use faults::FaultKind;
pub use grants::{AddressParts, AddressPattern, Grant, Grants, KeyPattern, Policy};
pub use laws::{names_are_of_one_api, words_are_of_one_permission};
pub use needs::{Ask, Need, Needs, Part, Parts};
pub use permissions::{PERMISSIONS, Permission, permission_named};
