ghost use Rattle.std.specs.Prelude.{◌≡◌, ◌++◌, codes, option_map};
ghost use Rattle.serde_json.specs.View.{view, items_view};
ghost use Rattle.export_fields.specs.Fault.{Reads, Fails};
ghost use Rattle.export_fields.specs.ListOf.{list_fault, list_at};
ghost use Rattle.export_fields.specs.Objects.{object_fault, object_at};
ghost use Rattle.export_fields.specs.Params.{not_param, as_param, not_params, as_params};
ghost use Rattle.export_fields.specs.Params.{item_params_fault, item_params, nested_fault};
ghost use Rattle.export_fields.specs.Params.{nested_at};

use crate::fault::{ReadEnd, broken_here, in_index, in_key};
use crate::fields::{object, text};
use crate::lists::{Entry, list_of};
use crate::objects::object_at;
use crate::words::{WordList, word};
use gtm_base::{ListOf, Text};
use serde_json::Value;
use std::alloc::Global;

/// The kind of a parameter.
#[derive(Clone, Copy, Debug, PartialEq, Eq)]
pub enum ParamKind {
    Template,
    Integer,
    Boolean,
    List,
    Map,
    TriggerReference,
    TagReference,
}

impl WordList for ParamKind {
    ghost use Rattle.export_fields.specs.Params.{kind_named};
    ghost use Rattle.export_fields.specs.declared.params.ParamKind.TheVariants.{Template};

    ghost named = { kind_named };

    ghost absent = { Template };

    fn named(word: &Text) -> Option<ParamKind> {
        if word.is_word("template") {
            Some(ParamKind::Template)
        } else if word.is_word("integer") {
            Some(ParamKind::Integer)
        } else if word.is_word("boolean") {
            Some(ParamKind::Boolean)
        } else if word.is_word("list") {
            Some(ParamKind::List)
        } else if word.is_word("map") {
            Some(ParamKind::Map)
        } else if word.is_word("triggerreference") {
            Some(ParamKind::TriggerReference)
        } else if word.is_word("tagreference") {
            Some(ParamKind::TagReference)
        } else {
            None
        }
    }

    fn absent() -> ParamKind {
        ParamKind::Template
    }
}

/// A parameter as it is written: an absent kind is `Template`, an absent text is empty, and so is
/// an absent list.
#[derive(Debug, Drop)]
pub struct WrittenParam {
    pub kind: ParamKind,
    pub key: Text,
    pub value: Text,
    pub list: WrittenParams,
    pub map: WrittenParams,
}

/// Parameters, in order.
pub type WrittenParams = ListOf<WrittenParam>;

impl Entry for WrittenParam {
    ghost use Rattle.export_fields.specs.Params.{not_param, as_param};

    ghost fault = { not_param };

    ghost made = { as_param };

    fn read(alloc: Global, value: &Value) -> Result<WrittenParam, ReadEnd> {
        as_param(alloc, value)
    }
}

// The parameter that the value stands for.
#[cycle(params)]
#[tactic(auto, using(crate::proofs::Nested::not_param_parts, crate::proofs::Nested::as_param_parts))]
fn as_param(alloc: Global, value: &Value) -> Result<WrittenParam, ReadEnd>
    ensures { Reads result (not_param (view value.now)) (as_param (view value.now)) }
{
    object(alloc, value)?;
    let kind = word(alloc, value, "type")?;
    let key = text(alloc, value, "key")?;
    let text = text(alloc, value, "value")?;
    let list = nested_at(alloc, value, "list")?;
    let map = nested_at(alloc, value, "map")?;
    Ok(WrittenParam {
        kind,
        key,
        value: text,
        list,
        map,
    })
}

// The parameters at a key of a parameter.
#[cycle(params)]
#[tactic(auto, unfolding(crate::specs::Params::nested_fault, crate::specs::Params::nested_at))]
fn nested_at(alloc: Global, object: &Value, key: &str) -> Result<WrittenParams, ReadEnd>
    ensures { Reads result (nested_fault key.now (view object.now))
        (nested_at key.now (view object.now)) }
{
    match object.get(key) {
        Some(value) => match as_params(alloc, value) {
            Ok(params) => Ok(params),
            Err(end) => Err(in_key(alloc, key, end)),
        },
        None => Ok(ListOf::new(alloc)),
    }
}

// The parameters that the value stands for.
#[cycle(params)]
#[tactic(auto, unfolding(crate::specs::Params::not_params, crate::specs::Params::as_params))]
fn as_params(alloc: Global, value: &Value) -> Result<WrittenParams, ReadEnd>
    ensures { Reads result (not_params (view value.now)) (as_params (view value.now)) }
{
    match value {
        Value::Array(items) => item_params(alloc, items),
        _ => Err(broken_here(alloc)),
    }
}

// The parameters that the items stand for.
#[cycle(params)]
#[tactic(auto, unfolding(crate::specs::Params::item_params_fault, crate::specs::Params::item_params))]
fn item_params(alloc: Global, items: &Vec<Value>) -> Result<WrittenParams, ReadEnd>
    ensures { Reads result (item_params_fault 0 (items_view items.now.items))
        (item_params (items_view items.now.items)) }
{
    let mut made = ListOf::new(alloc);
    for (at, item) in items.iter().enumerate() {
        match as_param(alloc, item) {
            Ok(param) => made.push(param)?,
            Err(end) => return Err(in_index(alloc, at, end)),
        }
    }
    Ok(made)
}

/// The parameters of the list at the key, with those inside them, or the empty list where there is
/// none. Of each parameter the fields are read in the order of `WrittenParam`, and the first fault
/// is told. A value that is no list is a fault at the field, and a parameter that is no object is
/// one at itself.
pub fn params_at(alloc: Global, object: &Value, key: &str) -> Result<WrittenParams, ReadEnd>
    ensures { Reads result (list_fault not_param key.now (view object.now))
        (list_at as_param key.now (view object.now)) }
{
    list_of(alloc, object, key)
}

/// The parameter at the key, with those inside it, or `None` where there is none. Its fault has the
/// key in its path.
pub fn param_at(alloc: Global, object: &Value, key: &str) -> Result<Option<WrittenParam>, ReadEnd>
    ensures { Reads result (object_fault not_param key.now (view object.now))
        (object_at as_param key.now (view object.now)) }
{
    object_at(alloc, object, key)
}
