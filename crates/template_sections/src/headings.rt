ghost use Rattle.std.specs.Prelude.{◌≡◌, IfOk};
ghost use Rattle.template_sections.specs.Lines.{lines};
ghost use Rattle.template_sections.specs.Scan.{headings_from};

use crate::lines::{heading_name, line_len};
use gtm_base::{ListOf, OutOfMemory, Text};
use std::alloc::Global;

/// A heading of a text.
#[derive(Debug, Drop)]
pub(crate) struct Heading {
    /// What stands between its underscores.
    pub(crate) name: Text,
    /// How many bytes stand before it.
    pub(crate) at: usize,
    /// How many bytes stand before its body.
    pub(crate) from: usize,
}

/// The headings of a text, in order.
pub(crate) type Headings = ListOf<Heading>;

pub(crate) fn headings(alloc: Global, text: &[u8]) -> Result<Headings, OutOfMemory>
    ensures { IfOk result (λ made. made ≡ headings_from 0 (lines text.now)) }
{
    let mut found = Headings::new(alloc);
    let mut left = text;
    let mut at = 0;
    while !left.is_empty() {
        let (line, rest) = left.split_at(line_len(left));
        let from = at + line.len();
        if let Some(name) = heading_name(line) {
            let name = text_of(alloc, name)?;
            found.push(Heading { name, at, from })?;
        }
        at = from;
        left = rest;
    }
    Ok(found)
}

// The text of these ASCII bytes.
fn text_of(alloc: Global, bytes: &[u8]) -> Result<Text, OutOfMemory>
    ensures { IfOk result (λ made. made ≡ bytes.now) }
{
    let mut made = Text::with_room(alloc, bytes.len())?;
    for byte in bytes {
        made.push(char::from(*byte))?;
    }
    Ok(made)
}
