ghost use Rattle.std.specs.Prelude.{◌≡◌, All, IfOk, OnOk};
ghost use Rattle.data_layer.specs.Merge.{put};
ghost use Rattle.export_model.specs.Sound.{InRange, IsParamIn};
ghost use Rattle.gtm_data.specs.Tree.{entries_of, object, tree_of};
ghost use Rattle.variable_kinds.specs.Ends.{Asks};
ghost use Rattle.variable_kinds.specs.Resolved.{chosen};
ghost use Rattle.variable_kinds.specs.declared.members.Choice.TheVariants.{Last};
ghost use Rattle.gtm_variables.specs.Asked.{asked};
ghost use Rattle.gtm_variables.specs.Kept.{Enters, IsFor, moment_of};
ghost use Rattle.gtm_variables.specs.Snapshot.{snapshot};
ghost use Rattle.event_pass.specs.Due as spec;
ghost use Rattle.event_pass.specs.Due.{params_in};

use export_model::Param;
use gtm_base::{Engines, OutOfMemory, Text};
use gtm_data::{Data, Members};
use gtm_variables::{TemplateCaller, ValueEnd, Values};
use std::alloc::Global;

/// The Map of the parameters of the tag at a place, and Undefined where there is no tag.
///
/// `EngineRefused` comes only with a rise of the engines' count, with a text that the moment may
/// ask them.
pub fn params_at<C: TemplateCaller, E: Engines>(
    alloc: Global,
    values: &mut Values,
    caller: &mut C,
    engines: &mut E,
    at: u32,
) -> Result<Data, ValueEnd>
    requires in_range { InRange values.old.container.now }
    requires caller { IsFor C.meaning C.serves C.knows caller.old values.old }
    ensures value { IfOk result (λ made. tree_of made
        ≡ spec.params_at (snapshot (moment_of values.old) (C.meaning caller.old)) at) }
    ensures moment { moment_of values.new ≡ moment_of values.old }
    ensures caller { IsFor C.meaning C.serves C.knows caller.new values.new }
    ensures entered { Enters C.meaning C.serves C.knows C.keeps
        (snapshot (moment_of values.old) (C.meaning caller.old)) caller.old caller.new }
    ensures asks { Asks (asked (snapshot (moment_of values.old) (C.meaning caller.old)))
        result (E.state engines.old) (E.state engines.new) }
{
    let container = values.container;
    match container.tags.get(at as usize) {
        Some(tag) => Ok(Data::Map(members_of(
            alloc,
            values,
            caller,
            engines,
            tag.params.as_slice(),
        )?)),
        None => Ok(Data::Undefined),
    }
}

// The members that parameters make: a repeated key keeps its place, and has the last value.
fn members_of<C: TemplateCaller, E: Engines>(
    alloc: Global,
    values: &mut Values,
    caller: &mut C,
    engines: &mut E,
    params: &[Param],
) -> Result<Members, ValueEnd>
    requires params { All (IsParamIn values.old.container.now) params.now }
    requires caller { IsFor C.meaning C.serves C.knows caller.old values.old }
    ensures value { IfOk result (λ made. object (entries_of made.pairs)
        ≡ params_in (snapshot (moment_of values.old) (C.meaning caller.old)) params.now) }
    ensures moment { moment_of values.new ≡ moment_of values.old }
    ensures caller { IsFor C.meaning C.serves C.knows caller.new values.new }
    ensures entered { Enters C.meaning C.serves C.knows C.keeps
        (snapshot (moment_of values.old) (C.meaning caller.old)) caller.old caller.new }
    ensures asks { Asks (asked (snapshot (moment_of values.old) (C.meaning caller.old)))
        result (E.state engines.old) (E.state engines.new) }
{
    let mut members = Members::new(alloc);
    for param in params {
        let value = values.resolve(caller, engines, &param.value)?;
        put_last(alloc, &mut members, &param.key, value)?;
    }
    Ok(members)
}

// Puts a value at its key: behind the last, where no member has the key, and else in place of the
// one there.
fn put_last(
    alloc: Global,
    members: &mut Members,
    key: &Text,
    value: Data,
) -> Result<(), OutOfMemory>
    ensures { OnOk result (entries_of members.new.pairs
        ≡ put key.now (chosen Last (tree_of value)) (tree_of value)
        (entries_of members.old.pairs)) }
{
    match members.place_of(key.as_str()) {
        Some(at) => {
            fill(members.value_mut(at), value);
            Ok(())
        },
        None => members.push(key.copy(alloc)?, value),
    }
}

// Puts a value in place of another one.
fn fill(place: &mut Data, value: Data)
    ensures { tree_of place.new ≡ tree_of value }
{
    *place = value;
}
