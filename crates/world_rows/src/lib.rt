//! Tests of the world of a page from outside: facts of a page, one after the other, and all that is
//! known then, each expected value worked out by hand from the rules.
#![tactic(auto)]

#[cfg(test)]
mod facts;
#[cfg(test)]
mod giving;
#[cfg(test)]
mod globals;
#[cfg(test)]
mod messages;
#[cfg(test)]
mod telling;
