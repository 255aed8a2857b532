ghost use Rattle.std.specs.Prelude.{◌≡◌, ◌++◌, IfOk, OnOk};
ghost use Rattle.std.specs.List.{flat_map};
ghost use Rattle.export_model.specs.Params.{params_of, value_of};
ghost use Rattle.gtm_data.specs.Tree.{entries_of, none, tree_of, trees, trees_of};
ghost use Rattle.variable_kinds.specs.Kinds.{value_by};
ghost use Rattle.variable_kinds.specs.Resolved as spec;

use crate::Names;
use crate::members::{Choice, put};
use crate::naming::name_value;
use export_model::{NameRef, ParamValue, Params, Piece, Pieces};
use gtm_base::{OutOfMemory, Text};
use gtm_data::{Data, Items, Members, text_of};

/// The value of a parameter, by what is kept: a text that is exactly one name has the name's value,
/// and else the texts of its pieces are joined.
#[cycle(resolved)]
#[tactic(auto, unfolding(crate::specs::Resolved::resolved))]
pub fn resolved(names: &Names, value: &ParamValue) -> Result<Data, OutOfMemory>
    ensures { IfOk result (λ made.
        tree_of made ≡ spec.resolved (value_by names.now) (value_of value.now)) }
{
    match value {
        ParamValue::Template(pieces) => pieced(names, pieces),
        ParamValue::Integer(number) => Ok(Data::Whole(*number)),
        ParamValue::Bool(truth) => Ok(Data::Bool(*truth)),
        ParamValue::List(params) => Ok(Data::List(resolved_items(names, params)?)),
        ParamValue::Map(params) => Ok(Data::Map(resolved_members(names, Choice::Last, params)?)),
        ParamValue::Reference(text) => Ok(Data::Text(text.copy(names.alloc)?)),
    }
}

// The values of parameters, in order.
#[cycle(resolved)]
#[tactic(auto, unfolding(crate::specs::Resolved::resolved_items))]
fn resolved_items(names: &Names, params: &Params) -> Result<Items, OutOfMemory>
    ensures { IfOk result (λ made. trees_of made
        ≡ trees (spec.resolved_items (value_by names.now) (params_of params.now))) }
{
    let mut items = Items::new(names.alloc);
    for param in params.as_slice() {
        items.push(resolved(names, &param.value)?)?;
    }
    Ok(items)
}

/// The members that parameters make: a repeated key keeps its place, and has the value of the first
/// or of the last parameter.
#[cycle(resolved)]
#[tactic(auto, unfolding(crate::specs::Resolved::resolved_members))]
pub fn resolved_members(
    names: &Names,
    choice: Choice,
    params: &Params,
) -> Result<Members, OutOfMemory>
    ensures { IfOk result (λ made. entries_of made.pairs
        ≡ spec.resolved_members (value_by names.now) choice (params_of params.now) none) }
{
    let mut members = Members::new(names.alloc);
    for param in params.as_slice() {
        let value = resolved(names, &param.value)?;
        put(names.alloc, &mut members, choice, &param.key, value)?;
    }
    Ok(members)
}

// Exactly one name has its value; else the texts of the pieces are joined.
fn pieced(names: &Names, pieces: &Pieces) -> Result<Data, OutOfMemory>
    ensures { IfOk result (λ made. tree_of made ≡ spec.pieced (value_by names.now) pieces.now) }
{
    match single_name(pieces) {
        Some(name) => name_value(names, name),
        None => Ok(Data::Text(joined(names, pieces)?)),
    }
}

// The name that pieces are, where they are exactly one name.
fn single_name(pieces: &Pieces) -> Option<NameRef>
    ensures { result ≡ spec.single_name pieces.now }
{
    match pieces.as_slice() {
        [Piece::Name(name)] => Some(*name),
        _ => None,
    }
}

// The texts of pieces, one behind the other.
fn joined(names: &Names, pieces: &Pieces) -> Result<Text, OutOfMemory>
    ensures { IfOk result (λ made.
        made ≡ flat_map (spec.piece_text (value_by names.now)) pieces.now) }
{
    let mut out = Text::new(names.alloc);
    for piece in pieces.as_slice() {
        push_piece(names, &mut out, piece)?;
    }
    Ok(out)
}

// Puts the text of a piece behind.
fn push_piece(names: &Names, out: &mut Text, piece: &Piece) -> Result<(), OutOfMemory>
    ensures { OnOk result
        (out.new ≡ out.old ++ spec.piece_text (value_by names.now) piece.now) }
{
    match piece {
        Piece::Literal(characters) => out.push_str(characters.as_str()),
        Piece::Name(name) => {
            let value = name_value(names, *name)?;
            let text = text_of(names.alloc, &value)?;
            out.push_str(text.as_str())
        },
    }
}
