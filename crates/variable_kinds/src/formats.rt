ghost use Rattle.std.specs.Prelude.{◌≡◌, IfOk, map};
ghost use Rattle.std.specs.Char.{to_ascii_lowercase, to_ascii_uppercase};
ghost use Rattle.gtm_data.specs.Tree.{tree_of};
ghost use Rattle.variable_kinds.specs.Formats.{cased, cased_text, converted, formatted, given_or};
ghost use Rattle.variable_kinds.specs.Kinds.{value_by};

use crate::Names;
use crate::resolving::resolved;
use export_model::{Format, Param};
use gtm_base::{OutOfMemory, Text};
use gtm_data::Data;
use std::alloc::Global;

/// A value as a format changes it: the case of a text, and then what stands for null, undefined,
/// true and false.
pub fn formatted(names: &Names, format: &Format, value: Data) -> Result<Data, OutOfMemory>
    ensures { IfOk result (λ made.
        tree_of made ≡ formatted (value_by names.now) format.now (tree_of value)) }
{
    let value = cased(names.alloc, format, value)?;
    converted(names, format, value)
}

// A value in another case, where it is a text.
fn cased(alloc: Global, format: &Format, value: Data) -> Result<Data, OutOfMemory>
    ensures { IfOk result (λ made. tree_of made ≡ cased format.now (tree_of value)) }
{
    match value {
        Data::Text(text) => Ok(Data::Text(cased_text(alloc, format, text)?)),
        other => Ok(other),
    }
}

fn cased_text(alloc: Global, format: &Format, text: Text) -> Result<Text, OutOfMemory>
    ensures { IfOk result (λ made. made ≡ cased_text format.now text) }
{
    if format.lower {
        lower(alloc, &text)
    } else if format.upper {
        upper(alloc, &text)
    } else {
        Ok(text)
    }
}

fn lower(alloc: Global, text: &Text) -> Result<Text, OutOfMemory>
    ensures { IfOk result (λ made. made ≡ map to_ascii_lowercase text.now) }
{
    let mut made = Text::new(alloc);
    for character in text.as_str().chars() {
        made.push(character.to_ascii_lowercase())?;
    }
    Ok(made)
}

fn upper(alloc: Global, text: &Text) -> Result<Text, OutOfMemory>
    ensures { IfOk result (λ made. made ≡ map to_ascii_uppercase text.now) }
{
    let mut made = Text::new(alloc);
    for character in text.as_str().chars() {
        made.push(character.to_ascii_uppercase())?;
    }
    Ok(made)
}

// What stands for null, undefined, true and false.
fn converted(names: &Names, format: &Format, value: Data) -> Result<Data, OutOfMemory>
    ensures { IfOk result (λ made.
        tree_of made ≡ converted (value_by names.now) format.now (tree_of value)) }
{
    match value {
        Data::Null => given_or(names, &format.null, Data::Null),
        Data::Undefined => given_or(names, &format.undefined, Data::Undefined),
        Data::Bool(true) => given_or(names, &format.yes, Data::Bool(true)),
        Data::Bool(false) => given_or(names, &format.no, Data::Bool(false)),
        other => Ok(other),
    }
}

// The value of a parameter, or another one where there is none.
fn given_or(names: &Names, param: &Option<Param>, value: Data) -> Result<Data, OutOfMemory>
    ensures { IfOk result (λ made.
        tree_of made ≡ given_or (value_by names.now) param.now (tree_of value)) }
{
    match param {
        Some(param) => resolved(names, &param.value),
        None => Ok(value),
    }
}
