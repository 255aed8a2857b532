//! Tests of the forms of `Engines` from outside: patterns, texts that are none, addresses and their
//! parts, and planned refusals.
#![tactic(auto)]

#[cfg(test)]
mod addresses;
#[cfg(test)]
mod pack;
#[cfg(test)]
mod planned;
