ghost use Rattle.std.specs.Prelude.{◌≡◌, IfOk, IsTrue, option_map};
ghost use Rattle.gtm_base.specs.Ascii.{is_all_ascii};
ghost use Rattle.gtm_data.specs.Paths.{member_of};
ghost use Rattle.gtm_data.specs.Tree.{tree_of};
ghost use Rattle.variable_kinds.specs.Fields.{default_of, field, is_set, is_undefined, or_default};
ghost use Rattle.variable_kinds.specs.Fields.{text_field};

use gtm_base::{OutOfMemory, Text};
use gtm_data::{Data, copy, text_of};
use std::alloc::Global;

/// The member with this word as its key, or `None`.
pub fn member<'b>(fields: &'b Data, key: &str) -> Option<&'b Data>
    requires { IsTrue (is_all_ascii key.now) }
    ensures { option_map (λ found. tree_of found.now) result
        ≡ member_of key.now (tree_of fields.now) }
{
    fields.member(key)
}

/// A copy of a field, Undefined where it is absent.
pub fn field(alloc: Global, fields: &Data, key: &str) -> Result<Data, OutOfMemory>
    requires { IsTrue (is_all_ascii key.now) }
    ensures { IfOk result (λ made. tree_of made ≡ field key.now (tree_of fields.now)) }
{
    match member(fields, key) {
        Some(value) => copy(alloc, value),
        None => Ok(Data::Undefined),
    }
}

/// The text of a field, empty where it is absent.
pub fn text_field(alloc: Global, fields: &Data, key: &str) -> Result<Text, OutOfMemory>
    requires { IsTrue (is_all_ascii key.now) }
    ensures { IfOk result (λ text. text ≡ text_field key.now (tree_of fields.now)) }
{
    match member(fields, key) {
        Some(value) => text_of(alloc, value),
        None => Ok(Text::new(alloc)),
    }
}

/// Whether a flag has the text `true`.
pub fn is_set(alloc: Global, fields: &Data, key: &str) -> Result<bool, OutOfMemory>
    requires { IsTrue (is_all_ascii key.now) }
    ensures { IfOk result (λ set. set ≡ is_set key.now (tree_of fields.now)) }
{
    let text = text_field(alloc, fields, key)?;
    Ok(text.is_word("true"))
}

/// What stands for a value that is missing.
pub fn default_of(alloc: Global, fields: &Data) -> Result<Data, OutOfMemory>
    ensures { IfOk result (λ made. tree_of made ≡ default_of (tree_of fields.now)) }
{
    if is_set(alloc, fields, "setDefaultValue")? {
        field(alloc, fields, "defaultValue")
    } else {
        Ok(Data::Undefined)
    }
}

/// Whether a value is Undefined.
pub fn is_undefined(value: &Data) -> bool
    ensures { result ≡ is_undefined (tree_of value.now) }
{
    matches!(value, Data::Undefined)
}

/// A value, or what stands for it where it is Undefined.
pub fn or_default(alloc: Global, fields: &Data, value: Data) -> Result<Data, OutOfMemory>
    ensures { IfOk result
        (λ made. tree_of made ≡ or_default (tree_of fields.now) (tree_of value)) }
{
    if is_undefined(&value) {
        default_of(alloc, fields)
    } else {
        Ok(value)
    }
}
