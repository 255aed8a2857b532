ghost use Rattle.std.specs.Prelude.{◌≡◌, ◌++◌, IfOk, OnOk, map, option_map};
ghost use Rattle.std.specs.Str.{chars};
ghost use Rattle.export_names.specs.Cut.{around_twice, first_name, literal_of};
ghost use Rattle.export_names.specs.Names.{NameLists, numbered, pieces_of};

use crate::names::{Names, name_ref};
use export_model::{Piece, Pieces};
use gtm_base::{OutOfMemory, Text};
use std::alloc::Global;

/// The pieces of a text: each `{{name}}` as what the name stands for, and the characters around
/// them. Fails where memory is wanting.
pub fn pieces_of(alloc: Global, names: &Names, text: &str) -> Result<Pieces, OutOfMemory>
    ensures { IfOk result (λ made. made ≡ pieces_of names.now (chars text.now)) }
{
    let mut made = Pieces::new(alloc);
    let mut left = text;
    while let Some((before, name, behind)) = first_name(left) {
        push_literal(alloc, &mut made, before)?;
        made.push(Piece::Name(name_ref(names, name)))?;
        left = behind;
    }
    push_literal(alloc, &mut made, left)?;
    Ok(made)
}

// What stands before the first name of a text, the name, and what stands behind it.
#[tactic(auto, unfolding(crate::specs::Cut::first_name))]
fn first_name(text: &str) -> Option<(&str, &str, &str)>
    ensures { option_map (λ found. (chars found.0.now, chars found.1.now, chars found.2.now)) result
        ≡ first_name (chars text.now) }
{
    let (before, opened) = around_open(text)?;
    let (name, behind) = around_close(opened)?;
    Some((before, name, behind))
}

// What stands before the first `{{`, and what stands behind it.
fn around_open(text: &str) -> Option<(&str, &str)>
    ensures { option_map (λ parts. (chars parts.0.now, chars parts.1.now)) result
        ≡ around_twice 123 (chars text.now) }
{
    text.split_once("{{")
}

// What stands before the first `}}`, and what stands behind it.
fn around_close(text: &str) -> Option<(&str, &str)>
    ensures { option_map (λ parts. (chars parts.0.now, chars parts.1.now)) result
        ≡ around_twice 125 (chars text.now) }
{
    text.split_once("}}")
}

// Puts a text behind as a literal, unless it is empty.
fn push_literal(alloc: Global, pieces: &mut Pieces, text: &str) -> Result<(), OutOfMemory>
    ensures { OnOk result
        ((names : NameLists)
        → pieces.new ≡ pieces.old ++ map (numbered names) (literal_of (chars text.now))) }
{
    if !text.is_empty() {
        pieces.push(Piece::Literal(Text::from_str(alloc, text)?))?;
    }
    Ok(())
}
