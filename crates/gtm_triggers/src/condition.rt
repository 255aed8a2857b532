ghost use Rattle.std.specs.Prelude.{◌≡◌, All, IfOk};
ghost use Rattle.export_model.specs.Names.{names_in};
ghost use Rattle.export_model.specs.Params.{value_of};
ghost use Rattle.export_model.specs.Sound.{IsConditionIn, IsNameIn};
ghost use Rattle.gtm_data.specs.Tree.{tree_of};
ghost use Rattle.variable_kinds.specs.Ends.{Asks};
ghost use Rattle.gtm_variables.specs.Asked.{asked};
ghost use Rattle.gtm_variables.specs.Kept.{Enters, IsFor, moment_of};
ghost use Rattle.gtm_variables.specs.Meaning.{resolved_in};
ghost use Rattle.gtm_variables.specs.Snapshot.{snapshot};
ghost use Rattle.gtm_triggers.specs.Asking.{asked_with};
ghost use Rattle.gtm_triggers.specs.Holding as spec;

use crate::comparing::decided;
use export_model::Condition;
use gtm_base::Engines;
use gtm_data::Data;
use gtm_variables::{TemplateCaller, ValueEnd, Values};
use std::alloc::Global;

/// Whether a condition holds. One of a type that is not built never does, negated or not.
///
/// `EngineRefused` comes only with a rise of the engines' count, with a text that the moment may
/// ask them, or with the condition's pattern. After want of memory in `values` it is spent.
pub fn holds<C: TemplateCaller, E: Engines>(
    alloc: Global,
    values: &mut Values,
    caller: &mut C,
    engines: &mut E,
    condition: &Condition,
) -> Result<bool, ValueEnd>
    requires condition { IsConditionIn values.old.container.now condition.now }
    requires caller { IsFor C.meaning C.serves C.knows caller.old values.old }
    ensures value { IfOk result (λ holds. holds
        ≡ spec.holds (snapshot (moment_of values.old) (C.meaning caller.old)) condition.now) }
    ensures moment { moment_of values.new ≡ moment_of values.old }
    ensures caller { IsFor C.meaning C.serves C.knows caller.new values.new }
    ensures entered { Enters C.meaning C.serves C.knows C.keeps
        (snapshot (moment_of values.old) (C.meaning caller.old)) caller.old caller.new }
    ensures asks { Asks
        (asked_with (snapshot (moment_of values.old) (C.meaning caller.old)) condition.now)
        result (E.state engines.old) (E.state engines.new) }
{
    let (left, right) = sides(values, caller, engines, condition)?;
    decided(alloc, engines, condition, &left, &right)
}

// The values of both sides of a condition.
fn sides<C: TemplateCaller, E: Engines>(
    values: &mut Values,
    caller: &mut C,
    engines: &mut E,
    condition: &Condition,
) -> Result<(Data, Data), ValueEnd>
    requires condition { IsConditionIn values.old.container.now condition.now }
    requires caller { IsFor C.meaning C.serves C.knows caller.old values.old }
    ensures left { IfOk result (λ sides. tree_of sides.0
        ≡ resolved_in (snapshot (moment_of values.old) (C.meaning caller.old))
        (value_of condition.now.left.value)) }
    ensures right { IfOk result (λ sides. tree_of sides.1
        ≡ resolved_in (snapshot (moment_of values.old) (C.meaning caller.old))
        (value_of condition.now.right.value)) }
    ensures moment { moment_of values.new ≡ moment_of values.old }
    ensures caller { IsFor C.meaning C.serves C.knows caller.new values.new }
    ensures entered { Enters C.meaning C.serves C.knows C.keeps
        (snapshot (moment_of values.old) (C.meaning caller.old)) caller.old caller.new }
    ensures asks { Asks (asked (snapshot (moment_of values.old) (C.meaning caller.old)))
        result (E.state engines.old) (E.state engines.new) }
{
    let left = values.resolve(caller, engines, &condition.left.value)?;
    let right = values.resolve(caller, engines, &condition.right.value)?;
    Ok((left, right))
}
