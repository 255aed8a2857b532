ghost use Rattle.std.specs.Prelude.{◌≡◌, IfOk, map};
ghost use Rattle.export_names.specs.Params.{template, integer, truth_of, boolean, param_of};
ghost use Rattle.export_names.specs.Params.{params_of};

use crate::names::Names;
use crate::pieces::pieces_of;
use export_fields::{ParamKind, WrittenParam, WrittenParams};
use export_model::{Param, ParamValue, Params};
use gtm_base::{OutOfMemory, Text};
use gtm_data::whole_text;
use std::alloc::Global;

/// The parameter of the model that a written one stands for, with those inside it. Fails where
/// memory is wanting.
#[cycle(params)]
pub fn param_of(alloc: Global, names: &Names, written: &WrittenParam) -> Result<Param, OutOfMemory>
    ensures { IfOk result (λ made. made ≡ param_of names.now written.now) }
{
    let key = written.key.copy(alloc)?;
    let value = value_of(alloc, names, written)?;
    Ok(Param { key, value })
}

#[cycle(params)]
fn value_of(alloc: Global, names: &Names, written: &WrittenParam) -> Result<ParamValue, OutOfMemory>
    ensures { IfOk result (λ made. made ≡ (param_of names.now written.now).value) }
{
    match written.kind {
        ParamKind::Template => template(alloc, names, &written.value),
        ParamKind::Integer => integer(alloc, names, &written.value),
        ParamKind::Boolean => boolean(alloc, names, &written.value),
        ParamKind::List => Ok(ParamValue::List(params_of(alloc, names, &written.list)?)),
        ParamKind::Map => Ok(ParamValue::Map(params_of(alloc, names, &written.map)?)),
        ParamKind::TriggerReference => Ok(ParamValue::Reference(written.value.copy(alloc)?)),
        ParamKind::TagReference => Ok(ParamValue::Reference(written.value.copy(alloc)?)),
    }
}

/// The parameters of the model that written ones stand for, in order. Fails where memory is
/// wanting.
#[cycle(params)]
pub fn params_of(
    alloc: Global,
    names: &Names,
    written: &WrittenParams,
) -> Result<Params, OutOfMemory>
    ensures { IfOk result (λ made. made ≡ params_of names.now written.now) }
{
    let mut made = Params::new(alloc);
    for param in written.as_slice() {
        made.push(param_of(alloc, names, param)?)?;
    }
    Ok(made)
}

fn template(alloc: Global, names: &Names, text: &Text) -> Result<ParamValue, OutOfMemory>
    ensures { IfOk result (λ made. made ≡ template names.now text.now) }
{
    Ok(ParamValue::Template(pieces_of(alloc, names, text.as_str())?))
}

// The whole number that a text is; of another text, its template.
fn integer(alloc: Global, names: &Names, text: &Text) -> Result<ParamValue, OutOfMemory>
    ensures { IfOk result (λ made. made ≡ integer names.now text.now) }
{
    match whole_text(text.as_str()) {
        Some(number) => Ok(ParamValue::Integer(number)),
        None => template(alloc, names, text),
    }
}

// The truth that a text is; of another text, its template.
fn boolean(alloc: Global, names: &Names, text: &Text) -> Result<ParamValue, OutOfMemory>
    ensures { IfOk result (λ made. made ≡ boolean names.now text.now) }
{
    match truth_of(text) {
        Some(truth) => Ok(ParamValue::Bool(truth)),
        None => template(alloc, names, text),
    }
}

// The truth that a text is, if it is `true` or `false`.
fn truth_of(text: &Text) -> Option<bool>
    ensures { result ≡ truth_of text.now }
{
    if text.is_word("true") {
        Some(true)
    } else if text.is_word("false") {
        Some(false)
    } else {
        None
    }
}
