//! Tests of `export_reader` and `export_names` from outside, each expected value worked out by
//! hand from the rules of an export.
//!
//! Broken exports with the least rule that each breaks and its first path, broken templates among
//! them; exports that are read; all that is read of one as it comes from Google Tag Manager, with
//! the container that it stands for; a template as it is read; and texts with names in them, and a
//! parameter of each kind.
#![tactic(auto)]

#[cfg(test)]
mod accepted;
#[cfg(test)]
mod broken;
#[cfg(test)]
mod judging;
#[cfg(test)]
mod many;
#[cfg(test)]
mod model;
#[cfg(test)]
mod naming;
#[cfg(test)]
mod part_rows;
#[cfg(test)]
mod realistic;
#[cfg(test)]
mod reference_rows;
#[cfg(test)]
mod section_rows;
#[cfg(test)]
mod templates;
#[cfg(test)]
mod version_rows;
#[cfg(test)]
mod whole_rows;
