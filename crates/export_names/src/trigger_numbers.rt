ghost use Rattle.std.specs.Prelude.{◌≡◌, IfOk};
ghost use Rattle.export_names.specs.Values.{values_of};
ghost use Rattle.export_names.specs.TriggerRefs.{built_in_trigger, trigger_ref, trigger_refs};
ghost use Rattle.export_names.specs.TriggerRefs.{is_never};

use crate::numbers::Numbers;
use export_fields::WrittenParam;
use export_model::{TriggerRef, TriggerRefs};
use gtm_base::{OutOfMemory, Text, Texts};
use std::alloc::Global;

/// What the numbers of triggers stand for, in order. Fails where memory is wanting.
pub fn trigger_refs(alloc: Global, ids: &Numbers, texts: &Texts) -> Result<TriggerRefs, OutOfMemory>
    ensures { IfOk result (λ made. made ≡ trigger_refs ids.now texts.now) }
{
    let mut made = TriggerRefs::new(alloc);
    for id in texts.as_slice() {
        made.push(trigger_ref(ids, id))?;
    }
    Ok(made)
}

/// What the numbers in the texts of parameters stand for, in order. Fails where memory is wanting.
pub fn param_refs(
    alloc: Global,
    ids: &Numbers,
    params: &[WrittenParam],
) -> Result<TriggerRefs, OutOfMemory>
    ensures { IfOk result (λ made. made ≡ trigger_refs ids.now (values_of params.now)) }
{
    let mut made = TriggerRefs::new(alloc);
    for param in params {
        made.push(trigger_ref(ids, &param.value))?;
    }
    Ok(made)
}

/// What the number of a trigger stands for: the first trigger of the container's own that has it,
/// else a built-in one.
pub fn trigger_ref(ids: &Numbers, id: &Text) -> TriggerRef
    ensures { result ≡ trigger_ref ids.now id.now }
{
    match ids.number(id) {
        Some(at) => TriggerRef::Own(at),
        None => built_in_trigger(id),
    }
}

// The built-in trigger with a number.
fn built_in_trigger(id: &Text) -> TriggerRef
    ensures { result ≡ built_in_trigger id.now }
{
    if id.is_word("2147479553") {
        TriggerRef::AllPages
    } else if id.is_word("2147479573") {
        TriggerRef::Init
    } else if id.is_word("2147479572") {
        TriggerRef::ConsentInit
    } else {
        TriggerRef::Never
    }
}

/// Whether a reference never holds.
pub fn is_never(reference: TriggerRef) -> bool
    ensures { result ≡ is_never reference }
{
    matches!(reference, TriggerRef::Never)
}
