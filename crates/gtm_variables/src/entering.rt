ghost use Rattle.std.specs.Prelude.{◌≡◌, IfOk, OnOk, OnErr, IsTrue};
ghost use Rattle.gtm_data.specs.Tree.{tree_of};
ghost use Rattle.variable_kinds.specs.Ends.{Asks};
ghost use Rattle.gtm_variables.specs.Calls.{is_map, returned, with_call};
ghost use Rattle.gtm_variables.specs.Kept.{Holds, moment_of};

use crate::caller::TemplateCaller;
use crate::{ValueEnd, Values};
use gtm_base::Engines;
use gtm_data::Data;
use perm_model::{EntryError, Outcome};

/// The value of a variable that enters a template: what the entry returned, Undefined where it was
/// denied or met a fault.
pub fn entered<C: TemplateCaller, E: Engines>(
    values: &Values,
    caller: &mut C,
    engines: &mut E,
    at: u32,
    fields: &Data,
) -> Result<Data, ValueEnd>
    requires world { C.serves caller.old (moment_of values.now).world }
    requires variable { C.knows caller.old at }
    requires fields { IsTrue (is_map (tree_of fields.now)) }
    ensures value { IfOk result (λ made. tree_of made ≡ returned
        ((C.meaning caller.old).outcome at (moment_of values.now).world (tree_of fields.now))) }
    ensures called { OnOk result
        (C.meaning caller.new ≡ with_call at (tree_of fields.now) (C.meaning caller.old)) }
    ensures not_called { OnErr result (C.meaning caller.new ≡ C.meaning caller.old) }
    ensures holds { Holds C.serves C.knows C.keeps caller.old caller.new }
    ensures asks { Asks
        ((C.meaning caller.old).texts at (moment_of values.now).world (tree_of fields.now))
        result (E.state engines.old) (E.state engines.new) }
{
    match caller.call(values.alloc, values.world, engines, at, fields) {
        Ok(Outcome::Returned(value)) => Ok(value),
        Ok(Outcome::Denied(_, _)) => Ok(Data::Undefined),
        Ok(Outcome::Fault(_, _)) => Ok(Data::Undefined),
        Err(EntryError::OutOfMemory) => Err(ValueEnd::OutOfMemory),
        Err(EntryError::EngineRefused { text }) => Err(ValueEnd::EngineRefused { text }),
    }
}
