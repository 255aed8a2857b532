ghost use Rattle.std.specs.Prelude.{◌≡◌, IfOk};
ghost use Rattle.export_model.specs.Params.{params_of, value_of};
ghost use Rattle.gtm_data.specs.Tree.{entries_of, none, tree_of, trees, trees_of};
ghost use Rattle.variable_kinds.specs.Kinds.{value_by};
ghost use Rattle.variable_kinds.specs.Resolved as spec;
ghost use Rattle.variable_kinds.specs.Resolved.{fields_for};

use crate::Names;
use crate::members::{Choice, put};
use crate::resolving::{resolved, resolved_members};
use export_model::{Param, ParamValue, Params, Variable, VariableKind};
use gtm_base::OutOfMemory;
use gtm_data::{Data, Items, Members};

/// The fields of a variable: its parameters with the values of names put in, by what is kept.
///
/// Of several with one key the first counts, also within a row of a table; in a variable that
/// enters a template the last does.
pub fn fields_by(names: &Names, variable: &Variable) -> Result<Data, OutOfMemory>
    ensures { IfOk result (λ made. tree_of made
        ≡ fields_for (value_by names.now) variable.now.kind variable.now.params) }
{
    match &variable.kind {
        VariableKind::Template(_) => {
            Ok(Data::Map(resolved_members(names, Choice::Last, &variable.params)?))
        },
        _ => Ok(Data::Map(own_members(names, &variable.params)?)),
    }
}

// The members that a variable's own parameters make: of several with one key the first counts.
#[tactic(auto, unfolding(crate::specs::Resolved::own_members))]
fn own_members(names: &Names, params: &Params) -> Result<Members, OutOfMemory>
    ensures { IfOk result (λ made. entries_of made.pairs
        ≡ spec.own_members (value_by names.now) (params_of params.now) none) }
{
    let mut members = Members::new(names.alloc);
    for param in params.as_slice() {
        let value = field_value(names, param)?;
        put(names.alloc, &mut members, Choice::First, &param.key, value)?;
    }
    Ok(members)
}

// The value of a field.
fn field_value(names: &Names, param: &Param) -> Result<Data, OutOfMemory>
    ensures { IfOk result (λ made. tree_of made
        ≡ spec.field_value (value_by names.now) param.now.key (value_of param.now.value)) }
{
    if param.key.is_word("map") {
        table(names, &param.value)
    } else {
        resolved(names, &param.value)
    }
}

// The value of a table.
fn table(names: &Names, value: &ParamValue) -> Result<Data, OutOfMemory>
    ensures { IfOk result (λ made.
        tree_of made ≡ spec.table (value_by names.now) (value_of value.now)) }
{
    match value {
        ParamValue::List(params) => Ok(Data::List(rows(names, params)?)),
        _ => resolved(names, value),
    }
}

// The values of rows, in order.
#[tactic(auto, unfolding(crate::specs::Resolved::rows))]
fn rows(names: &Names, params: &Params) -> Result<Items, OutOfMemory>
    ensures { IfOk result (λ made. trees_of made
        ≡ trees (spec.rows (value_by names.now) (params_of params.now))) }
{
    let mut items = Items::new(names.alloc);
    for param in params.as_slice() {
        items.push(row(names, &param.value)?)?;
    }
    Ok(items)
}

// The value of a row: of several parameters with one key the first counts.
fn row(names: &Names, value: &ParamValue) -> Result<Data, OutOfMemory>
    ensures { IfOk result (λ made.
        tree_of made ≡ spec.row (value_by names.now) (value_of value.now)) }
{
    match value {
        ParamValue::Map(params) => Ok(Data::Map(resolved_members(names, Choice::First, params)?)),
        _ => resolved(names, value),
    }
}
