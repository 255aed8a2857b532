ghost use Rattle.std.specs.Prelude.{◌≡◌, map, IfOk};
ghost use Rattle.export_container.specs.TriggerEntries.{trigger_of};

use crate::conditions::conditions_of;
use crate::trigger_kinds::trigger_kind;
use export_entries::{WrittenTrigger, WrittenTriggers};
use export_model::{Trigger, Triggers};
use export_names::{Known, member_params, param_refs};
use gtm_base::OutOfMemory;
use std::alloc::Global;

/// The triggers that written ones stand for, in order. Fails where memory is wanting.
pub fn triggers_of(
    alloc: Global,
    known: &Known,
    written: &WrittenTriggers,
) -> Result<Triggers, OutOfMemory>
    ensures { IfOk result (λ made. made ≡ map (trigger_of known.now) written.now) }
{
    let mut made = Triggers::new(alloc);
    for trigger in written.as_slice() {
        made.push(trigger_of(alloc, known, trigger)?)?;
    }
    Ok(made)
}

// The trigger that a written one stands for.
fn trigger_of(
    alloc: Global,
    known: &Known,
    written: &WrittenTrigger,
) -> Result<Trigger, OutOfMemory>
    ensures { IfOk result (λ made. made ≡ trigger_of known.now written.now) }
{
    let id = written.id.copy(alloc)?;
    let name = written.name.copy(alloc)?;
    let kind = trigger_kind(alloc, written)?;
    let conditions = conditions_of(alloc, &known.names, written)?;
    let params = member_params(alloc, written)?;
    let members = param_refs(alloc, &known.triggers, params)?;
    Ok(Trigger {
        id,
        name,
        kind,
        conditions,
        members,
    })
}
