//! Tests of the reading of templates and of permissions from outside, each expected value worked
//! out by hand from the rules.
//!
//! Ten lists of permissions as the editor of templates writes them, grant by grant with their
//! warnings; patterns of addresses, each with an address that it allows or not; needs against
//! policies; the sections of texts; and the fields of parameters.
#![tactic(auto)]

#[cfg(test)]
mod addresses;
#[cfg(test)]
mod editor_cookies;
#[cfg(test)]
mod editor_reading;
#[cfg(test)]
mod editor_urls;
#[cfg(test)]
mod editor_words;
#[cfg(test)]
mod fields;
#[cfg(test)]
mod needs;
#[cfg(test)]
mod policies;
#[cfg(test)]
mod sections;
#[cfg(test)]
mod telling;
