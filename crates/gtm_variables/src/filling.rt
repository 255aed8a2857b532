ghost use Rattle.std.specs.Prelude.{◌≡◌, ◌<◌, ◌∷◌, [], ℕ, false, length, Contains, None, Some};
ghost use Rattle.std.specs.Prelude.{All, slice_index_or, IfOk, OnOk};
ghost use Rattle.std.specs.List.{filter_map};
ghost use Rattle.export_model.specs.Graphs.{variable_at};
ghost use Rattle.export_model.specs.Names.{names_in};
ghost use Rattle.export_model.specs.Params.{value_of};
ghost use Rattle.export_model.specs.Sound.{IsNameIn};
ghost use Rattle.gtm_data.specs.declared.data.Data.{Data};
ghost use Rattle.gtm_data.specs.Tree.{tree_of};
ghost use Rattle.variable_kinds.specs.Ends.{Asks};
ghost use Rattle.variable_kinds.specs.Resolved as spec;
ghost use Rattle.gtm_variables.specs.Asked.{asked};
ghost use Rattle.gtm_variables.specs.Kept.{Enters, IsBegun, IsFor, SameMoment, is_missing};
ghost use Rattle.gtm_variables.specs.Kept.{kept_for, moment_of, value_by_kept};
ghost use Rattle.gtm_variables.specs.Meaning as means;
ghost use Rattle.gtm_variables.specs.Meaning.{resolved_in};
ghost use Rattle.gtm_variables.specs.Snapshot.{snapshot};

use crate::caller::TemplateCaller;
use crate::keeping::fill;
use crate::knowing::names;
use crate::{ValueEnd, Values};
use export_model::{Container, NameRef, ParamValue, named_by_value};
use gtm_base::{Engines, ListOf, OutOfMemory};
use gtm_data::Data;
use std::alloc::Global;
use variable_kinds::{name_value, resolved};

// A place with no value for each variable.
fn fresh(alloc: Global, container: &Container) -> Result<Vec<Option<Data>>, OutOfMemory>
    ensures length { IfOk result (λ kept. length kept.items ≡ length container.now.variables) }
    ensures none { IfOk result (λ kept. (at : ℕ) → slice_index_or kept.items at None ≡ None) }
{
    let mut kept = Vec::new(alloc);
    for _at in 0..container.variables.len() {
        kept.push(None)?;
    }
    Ok(kept)
}

// Makes a place for each variable, before the first of them is computed.
fn begin(values: &mut Values) -> Result<(), OutOfMemory>
    ensures begun { OnOk result (IsBegun values.new) }
    ensures only { (at : ℕ) (kept : Data) → kept_for values.new at ≡ Some kept
        → kept_for values.old at ≡ Some kept }
    ensures same { SameMoment values.old values.new }
{
    if values.kept.len() != values.container.variables.len() {
        values.kept = fresh(values.alloc, values.container)?;
    }
    Ok(())
}

// Computes the values of the variables at these places.
fn fill_all<C: TemplateCaller, E: Engines>(
    values: &mut Values,
    caller: &mut C,
    engines: &mut E,
    places: &[usize],
) -> Result<(), ValueEnd>
    requires within { (p : ℕ) → Contains places.now p
        → p < length values.old.container.now.variables }
    requires begun { IsBegun values.old }
    requires caller { IsFor C.meaning C.serves C.knows caller.old values.old }
    ensures there { OnOk result
        ((p : ℕ) → Contains places.now p → is_missing values.new p ≡ false) }
    ensures same { SameMoment values.old values.new }
    ensures caller { IsFor C.meaning C.serves C.knows caller.new values.new }
    ensures entered { Enters C.meaning C.serves C.knows C.keeps
        (snapshot (moment_of values.old) (C.meaning caller.old)) caller.old caller.new }
    ensures asks { Asks (asked (snapshot (moment_of values.old) (C.meaning caller.old)))
        result (E.state engines.old) (E.state engines.new) }
{
    for place in places {
        fill(values, caller, engines, *place)?;
    }
    Ok(())
}

// Begins, and computes the values of the variables at these places.
fn fill_places<C: TemplateCaller, E: Engines>(
    values: &mut Values,
    caller: &mut C,
    engines: &mut E,
    places: &[usize],
) -> Result<(), ValueEnd>
    requires within { (p : ℕ) → Contains places.now p
        → p < length values.old.container.now.variables }
    requires caller { IsFor C.meaning C.serves C.knows caller.old values.old }
    ensures there { OnOk result
        ((p : ℕ) → Contains places.now p → is_missing values.new p ≡ false) }
    ensures same { SameMoment values.old values.new }
    ensures caller { IsFor C.meaning C.serves C.knows caller.new values.new }
    ensures entered { Enters C.meaning C.serves C.knows C.keeps
        (snapshot (moment_of values.old) (C.meaning caller.old)) caller.old caller.new }
    ensures asks { Asks (asked (snapshot (moment_of values.old) (C.meaning caller.old)))
        result (E.state engines.old) (E.state engines.new) }
{
    begin(values)?;
    fill_all(values, caller, engines, places)
}

/// A parameter's value, with the values of the names in it.
pub fn resolve<C: TemplateCaller, E: Engines>(
    values: &mut Values,
    caller: &mut C,
    engines: &mut E,
    param: &ParamValue,
) -> Result<Data, ValueEnd>
    requires names { All (IsNameIn values.old.container.now) (names_in (value_of param.now)) }
    requires caller { IsFor C.meaning C.serves C.knows caller.old values.old }
    ensures value { IfOk result (λ made. tree_of made
        ≡ resolved_in (snapshot (moment_of values.old) (C.meaning caller.old))
        (value_of param.now)) }
    ensures same { SameMoment values.old values.new }
    ensures caller { IsFor C.meaning C.serves C.knows caller.new values.new }
    ensures entered { Enters C.meaning C.serves C.knows C.keeps
        (snapshot (moment_of values.old) (C.meaning caller.old)) caller.old caller.new }
    ensures asks { Asks (asked (snapshot (moment_of values.old) (C.meaning caller.old)))
        result (E.state engines.old) (E.state engines.new) }
{
    let places = named_by_value(values.alloc, param)?;
    fill_places(values, caller, engines, places.as_slice())?;
    Ok(resolved_by_kept(values, param)?)
}

// A parameter's value, by what is kept.
fn resolved_by_kept(values: &Values, param: &ParamValue) -> Result<Data, OutOfMemory>
    ensures { IfOk result (λ made.
        tree_of made ≡ spec.resolved (value_by_kept values.now) (value_of param.now)) }
{
    resolved(&names(values), param)
}

/// The value of a name.
pub fn value<C: TemplateCaller, E: Engines>(
    values: &mut Values,
    caller: &mut C,
    engines: &mut E,
    name: NameRef,
) -> Result<Data, ValueEnd>
    requires names { All (IsNameIn values.old.container.now) (name ∷ []) }
    requires caller { IsFor C.meaning C.serves C.knows caller.old values.old }
    ensures value { IfOk result (λ made. tree_of made
        ≡ means.value (snapshot (moment_of values.old) (C.meaning caller.old)) name) }
    ensures same { SameMoment values.old values.new }
    ensures caller { IsFor C.meaning C.serves C.knows caller.new values.new }
    ensures entered { Enters C.meaning C.serves C.knows C.keeps
        (snapshot (moment_of values.old) (C.meaning caller.old)) caller.old caller.new }
    ensures asks { Asks (asked (snapshot (moment_of values.old) (C.meaning caller.old)))
        result (E.state engines.old) (E.state engines.new) }
{
    let places = named(values.alloc, name)?;
    fill_places(values, caller, engines, places.as_slice())?;
    Ok(value_by_kept(values, name)?)
}

// The value of a name, by what is kept.
fn value_by_kept(values: &Values, name: NameRef) -> Result<Data, OutOfMemory>
    ensures { IfOk result (λ made. tree_of made ≡ value_by_kept values.now name) }
{
    name_value(&names(values), name)
}

// The place of the variable that a name stands for, if it does.
fn named(alloc: Global, name: NameRef) -> Result<ListOf<usize>, OutOfMemory>
    ensures { IfOk result (λ made. made ≡ filter_map variable_at (name ∷ [])) }
{
    let mut places = ListOf::new(alloc);
    if let NameRef::Variable(at) = name {
        places.push(at as usize)?;
    }
    Ok(places)
}
