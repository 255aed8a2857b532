ghost use Rattle.std.specs.Prelude.{◌≡◌, ◌++◌, OnOk};
ghost use Rattle.std.specs.List.{filter_map};
ghost use Rattle.export_model.specs.Graphs.{variable_at};
ghost use Rattle.export_model.specs.Names.{name_in, names_in, names_in_all, names_of_option};
ghost use Rattle.export_model.specs.Names.{names_of_format};
ghost use Rattle.export_model.specs.Params.{value_of, params_of};

use crate::{Format, NameRef, Param, ParamValue, Params, Piece, Pieces};
use gtm_base::{ListOf, OutOfMemory};

// Puts the places of the variables that parameters name, in order, behind those already found.
#[cycle(params)]
#[tactic(auto, unfolding(crate::specs::Names::names_in_all))]
pub(crate) fn push_named_by_params(
    found: &mut ListOf<usize>,
    params: &Params,
) -> Result<(), OutOfMemory>
    ensures { OnOk result
        (found.new ≡ found.old ++ filter_map variable_at (names_in_all (params_of params.now))) }
{
    for param in params.as_slice() {
        push_named_by_value(found, &param.value)?;
    }
    Ok(())
}

// Puts the places of the variables that the value of a parameter names behind those already found.
#[cycle(params)]
#[tactic(auto, unfolding(crate::specs::Names::names_in))]
pub(crate) fn push_named_by_value(
    found: &mut ListOf<usize>,
    value: &ParamValue,
) -> Result<(), OutOfMemory>
    ensures { OnOk result
        (found.new ≡ found.old ++ filter_map variable_at (names_in (value_of value.now))) }
{
    match value {
        ParamValue::Template(pieces) => push_named_by_pieces(found, pieces),
        ParamValue::Integer(_) => Ok(()),
        ParamValue::Bool(_) => Ok(()),
        ParamValue::List(params) => push_named_by_params(found, params),
        ParamValue::Map(params) => push_named_by_params(found, params),
        ParamValue::Reference(_) => Ok(()),
    }
}

// Puts the places of the variables that the pieces of a text name behind those already found.
fn push_named_by_pieces(found: &mut ListOf<usize>, pieces: &Pieces) -> Result<(), OutOfMemory>
    ensures { OnOk result
        (found.new ≡ found.old ++ filter_map variable_at (filter_map name_in pieces.now)) }
{
    for piece in pieces.as_slice() {
        if let Piece::Name(NameRef::Variable(at)) = piece {
            found.push(*at as usize)?;
        }
    }
    Ok(())
}

// Puts the places of the variables that a parameter names, where there is one, behind those already
// found.
fn push_named_by_option(found: &mut ListOf<usize>, param: &Option<Param>) -> Result<(), OutOfMemory>
    ensures { OnOk result
        (found.new ≡ found.old ++ filter_map variable_at (names_of_option param.now)) }
{
    match param {
        Some(param) => push_named_by_value(found, &param.value),
        None => Ok(()),
    }
}

// Puts the places of the variables that a format names behind those already found.
#[tactic(auto, using(crate::proofs::Joined::joined))]
pub(crate) fn push_named_by_format(
    found: &mut ListOf<usize>,
    format: &Format,
) -> Result<(), OutOfMemory>
    ensures { OnOk result
        (found.new ≡ found.old ++ filter_map variable_at (names_of_format format.now)) }
{
    push_named_by_option(found, &format.null)?;
    push_named_by_option(found, &format.undefined)?;
    push_named_by_option(found, &format.yes)?;
    push_named_by_option(found, &format.no)?;
    Ok(())
}
