//! Tests of the reading of scripts from outside, each expected value worked out by hand from the
//! rules.
//!
//! Tables of texts with their tokens or the place at which they are refused: each reserved word,
//! each sign, each escape, numbers, white space and comments; a text of 100,000 tokens; and trees
//! as deep as a script may nest, which are dropped.
#![tactic(auto)]

#[cfg(test)]
mod between;
#[cfg(test)]
mod deep;
#[cfg(test)]
mod numbers;
#[cfg(test)]
mod signs;
#[cfg(test)]
mod telling;
#[cfg(test)]
mod texts;
#[cfg(test)]
mod words;
