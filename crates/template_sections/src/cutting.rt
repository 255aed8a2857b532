ghost use Rattle.std.specs.Prelude.{◌≡◌, ◌≢◌, ◌≤◌, ◌+◌, ℕ, List, length, drop, map, IfOk};
ghost use Rattle.std.specs.Prelude.{IsTrue, Err};
ghost use Rattle.gtm_base.specs.Ascii.{is_all_ascii};
ghost use Rattle.template_sections.specs.Cut.{IsCut, span_of, next_at, repeated, outcome};
ghost use Rattle.template_sections.specs.Cut.{by_repeat, sections_in, visible_place, AreWithin};
ghost use Rattle.template_sections.specs.Scan.{IsSectionsOf};

use crate::headings::{Heading, headings};
use gtm_base::{OutOfMemory, Text};
use std::alloc::Global;
use text_places::first_repeat;

/// Where a body lies, in bytes of the whole text.
#[derive(Clone, Copy, Debug, PartialEq, Eq)]
pub struct Span {
    /// How many bytes stand before it.
    pub from: usize,
    /// How many bytes stand before what is behind it.
    pub to: usize,
}

/// Where the bodies of the headings lie that are used.
#[derive(Clone, Copy, Debug, PartialEq, Eq)]
pub struct Sections {
    /// Behind `___INFO___`.
    pub info: Span,
    /// Behind `___TEMPLATE_PARAMETERS___`.
    pub parameters: Option<Span>,
    /// Behind `___SANDBOXED_JS_FOR_WEB_TEMPLATE___`.
    pub script: Span,
    /// Behind `___WEB_PERMISSIONS___`.
    pub permissions: Option<Span>,
    /// Behind `___TESTS___`.
    pub tests: Option<Span>,
}

/// Why a text has no sections.
#[derive(Clone, Copy, Debug, PartialEq, Eq)]
pub enum SectionEnd {
    OutOfMemory,
    /// The heading that begins at this byte stood before.
    Repeated { place: usize },
    /// The text has no INFO, or no script for web containers.
    Missing,
    /// A character that is no white space stands before the first heading, at this byte.
    Before { place: usize },
}

impl From<OutOfMemory> for SectionEnd {
    ghost use Rattle.std.specs.Prelude.{◌≡◌};
    ghost use Rattle.template_sections.specs.declared.cutting.SectionEnd.{SectionEnd};

    ghost from_gives = { λ _ end. end ≡ SectionEnd.OutOfMemory };

    fn from(_: OutOfMemory) -> Self {
        SectionEnd::OutOfMemory
    }
}

/// The sections of a custom template's text. A heading is a line of three underscores, a name of
/// the letters `A` to `Z`, digits and underscores, and three underscores; a carriage return before
/// the line feed counts with neither. A body goes from behind the heading's line to the next
/// heading, or to the end. Refused where a heading stands twice, else where INFO or the script is
/// missing, else where there is text before the first heading. The bodies lie in the text.
pub fn cut(alloc: Global, text: &str) -> Result<Sections, SectionEnd>
    ensures parts { result ≢ Err SectionEnd.OutOfMemory → IsCut text.now result }
    ensures exact { IsSectionsOf text.now result }
    ensures within { IfOk result (AreWithin (length text.now)) }
{
    let headings = headings(alloc, text.as_bytes())?;
    let headings = headings.as_slice();
    if let Some(place) = repeated(alloc, headings)? {
        return Err(SectionEnd::Repeated { place });
    }
    let visible = text.len() - text.trim_start().len();
    sections_in(headings, text.len(), visible)
}

// The sections of a text in which no heading stands twice.
fn sections_in(headings: &[Heading], whole: usize, visible: usize) -> Result<Sections, SectionEnd>
    ensures { result ≡ sections_in whole visible headings.now }
{
    let info = span_of(headings, "INFO", whole).ok_or(SectionEnd::Missing)?;
    let script = span_of(headings, "SANDBOXED_JS_FOR_WEB_TEMPLATE", whole).ok_or(
        SectionEnd::Missing,
    )?;
    if visible < next_at(headings, 0, whole) {
        return Err(SectionEnd::Before { place: visible });
    }
    Ok(Sections {
        info,
        parameters: span_of(headings, "TEMPLATE_PARAMETERS", whole),
        script,
        permissions: span_of(headings, "WEB_PERMISSIONS", whole),
        tests: span_of(headings, "TESTS", whole),
    })
}

// Where the first heading begins that stood before.
fn repeated(alloc: Global, headings: &[Heading]) -> Result<Option<usize>, OutOfMemory>
    ensures { IfOk result (λ place. place ≡ repeated headings.now) }
{
    let names = names_of(alloc, headings)?;
    match first_repeat(alloc, names.as_slice())? {
        Some(at) => Ok(headings.get(at).map(|heading| heading.at)),
        None => Ok(None),
    }
}

fn names_of(alloc: Global, headings: &[Heading]) -> Result<Vec<&Text>, OutOfMemory>
    ensures { IfOk result (λ names. map (λ n. n.now) names.items ≡ map (λ h. h.name) headings.now) }
{
    let mut names = Vec::with_capacity(alloc, headings.len())?;
    for heading in headings {
        names.push(&heading.name)?;
    }
    Ok(names)
}

// The body behind the heading of this name.
fn span_of(headings: &[Heading], name: &str, whole: usize) -> Option<Span>
    requires { IsTrue (is_all_ascii name.now) }
    ensures { result ≡ span_of name.now whole headings.now }
{
    for (at, heading) in headings.iter().enumerate() {
        if heading.name.is_word(name) {
            let to = next_at(headings, at + 1, whole);
            return Some(Span {
                from: heading.from,
                to,
            });
        }
    }
    None
}

// Where the heading at this place of the list begins, or the end of the text.
fn next_at(headings: &[Heading], at: usize, whole: usize) -> usize
    ensures { result ≡ next_at whole (drop at headings.now) }
{
    match headings.get(at) {
        Some(heading) => heading.at,
        None => whole,
    }
}
