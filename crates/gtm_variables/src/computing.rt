ghost use Rattle.std.specs.Prelude.{◌≡◌, IfOk, IsTrue, OnOk, OnErr};
ghost use Rattle.gtm_data.specs.Tree.{tree_of};
ghost use Rattle.variable_kinds.specs.Ends.{Asks};
ghost use Rattle.variable_kinds.specs.Formats as spec;
ghost use Rattle.variable_kinds.specs.Kinds.{asked_of_kind, of_kind};
ghost use Rattle.gtm_variables.specs.Calls.{is_map};
ghost use Rattle.gtm_variables.specs.Kept.{Holds, MayEnter, moment_of, value_by_kept};
ghost use Rattle.gtm_variables.specs.Meaning.{IsTemplate, after_kind, fields_of, kind_texts};
ghost use Rattle.gtm_variables.specs.Meaning.{kind_value, of_variable};
ghost use Rattle.gtm_variables.specs.Snapshot.{snapshot};

use crate::caller::TemplateCaller;
use crate::entering::entered;
use crate::knowing::names;
use crate::{ValueEnd, Values};
use export_model::{Variable, VariableKind};
use gtm_base::{Engines, OutOfMemory};
use gtm_data::Data;
use variable_kinds::{fields_by, formatted, of_kind};

// The fields of a variable, by what is kept.
fn fields(values: &Values, variable: &Variable) -> Result<Data, OutOfMemory>
    ensures value { IfOk result
        (λ made. tree_of made ≡ fields_of (value_by_kept values.now) variable.now) }
    ensures map { IfOk result (λ made. IsTrue (is_map (tree_of made))) }
{
    fields_by(&names(values), variable)
}

// A value as the variable's format changes it, by what is kept.
fn formatted_by(values: &Values, variable: &Variable, value: Data) -> Result<Data, OutOfMemory>
    ensures { IfOk result (λ made. tree_of made
        ≡ spec.formatted (value_by_kept values.now) variable.now.format (tree_of value)) }
{
    formatted(&names(values), &variable.format, value)
}

// The value of a variable that enters no template, by its kind.
fn plain<E: Engines>(
    values: &Values,
    engines: &mut E,
    kind: &VariableKind,
    fields: &Data,
) -> Result<Data, ValueEnd>
    ensures value { IfOk result (λ made.
        tree_of made ≡ of_kind (moment_of values.now) kind.now (tree_of fields.now)) }
    ensures asks { Asks (asked_of_kind kind.now (tree_of fields.now))
        result (E.state engines.old) (E.state engines.new) }
{
    of_kind(&names(values), engines, kind, fields)
}

// The value of the variable at a place by its kind, from its fields.
fn kind_value<C: TemplateCaller, E: Engines>(
    values: &Values,
    caller: &mut C,
    engines: &mut E,
    at: u32,
    kind: &VariableKind,
    fields: &Data,
) -> Result<Data, ValueEnd>
    requires world { C.serves caller.old (moment_of values.now).world }
    requires variable { IsTemplate kind.now → C.knows caller.old at }
    requires fields { IsTrue (is_map (tree_of fields.now)) }
    ensures value { IfOk result (λ made. tree_of made
        ≡ kind_value (snapshot (moment_of values.now) (C.meaning caller.old)) at kind.now
        (tree_of fields.now)) }
    ensures called { OnOk result (C.meaning caller.new
        ≡ after_kind at kind.now (tree_of fields.now) (C.meaning caller.old)) }
    ensures not_called { OnErr result (C.meaning caller.new ≡ C.meaning caller.old) }
    ensures holds { Holds C.serves C.knows C.keeps caller.old caller.new }
    ensures asks { Asks
        (kind_texts (snapshot (moment_of values.now) (C.meaning caller.old)) at kind.now
        (tree_of fields.now)) result (E.state engines.old) (E.state engines.new) }
{
    match kind {
        VariableKind::Template(_) => entered(values, caller, engines, at, fields),
        _ => plain(values, engines, kind, fields),
    }
}

/// The value of the variable at a place, by what is kept.
pub fn computed<C: TemplateCaller, E: Engines>(
    values: &Values,
    caller: &mut C,
    engines: &mut E,
    at: u32,
    variable: &Variable,
) -> Result<Data, ValueEnd>
    requires world { C.serves caller.old (moment_of values.now).world }
    requires variable { IsTemplate variable.now.kind → C.knows caller.old at }
    ensures value { IfOk result (λ made. tree_of made
        ≡ of_variable (snapshot (moment_of values.now) (C.meaning caller.old))
        (value_by_kept values.now) at variable.now) }
    ensures called { OnOk result (C.meaning caller.new
        ≡ after_kind at variable.now.kind (fields_of (value_by_kept values.now) variable.now)
        (C.meaning caller.old)) }
    ensures may_call { OnErr result (MayEnter at variable.now.kind
        (fields_of (value_by_kept values.now) variable.now)
        (C.meaning caller.old) (C.meaning caller.new)) }
    ensures holds { Holds C.serves C.knows C.keeps caller.old caller.new }
    ensures asks { Asks
        (kind_texts (snapshot (moment_of values.now) (C.meaning caller.old)) at variable.now.kind
        (fields_of (value_by_kept values.now) variable.now))
        result (E.state engines.old) (E.state engines.new) }
{
    let fields = fields(values, variable)?;
    let value = kind_value(values, caller, engines, at, &variable.kind, &fields)?;
    Ok(formatted_by(values, variable, value)?)
}
