ghost use Rattle.std.specs.Prelude.{◌≡◌, IfOk, IsSome, IsTrue, option_map};
ghost use Rattle.std.specs.Str.{chars};
ghost use Rattle.data_layer.specs.Layer.{seen};
ghost use Rattle.gtm_base.specs.Ascii.{is_all_ascii};
ghost use Rattle.gtm_data.specs.Tree.{tree_of};
ghost use Rattle.page_world.specs.Known.{page_of};
ghost use Rattle.variable_kinds.specs.Moment.{layer_in};
ghost use Rattle.variable_kinds.specs.Sources as spec;
ghost use Rattle.variable_kinds.specs.Sources.{cookie_field, global_field, layer_at, layer_field};

use crate::reading::{is_set, or_default, text_field};
use data_layer::Layer;
use gtm_base::{OutOfMemory, Text};
use gtm_data::{Data, copy, get};
use page_world::Page;
use percent_encoding::percent_decode;
use std::alloc::Global;

/// The layer's value that the fields ask for, or its default.
pub fn layer_field(alloc: Global, layer: &Layer, fields: &Data) -> Result<Data, OutOfMemory>
    requires { IsSome (seen layer.now) }
    ensures { IfOk result (λ made.
        tree_of made ≡ layer_field (layer_in layer.now) (tree_of fields.now)) }
{
    let name = text_field(alloc, fields, "name")?;
    let version = text_field(alloc, fields, "dataLayerVersion")?;
    let value = layer_at(alloc, layer, name.as_str(), version_of(&version))?;
    or_default(alloc, fields, value)
}

ghost use Rattle.std.specs.Prelude.{codes, if◌then◌else◌};
ghost use Rattle.std.specs.Str.{bytes_eq};

fn version_of(text: &Text) -> u8
    ensures { result ≡ (if bytes_eq text.now (codes "1") then 1 else 2) }
{
    if text.is_word("1") { 1 } else { 2 }
}

/// The layer's value of a key in a version, Undefined where there is none.
pub fn layer_at(alloc: Global, layer: &Layer, key: &str, version: u8) -> Result<Data, OutOfMemory>
    requires { IsSome (seen layer.now) }
    ensures { IfOk result (λ made.
        tree_of made ≡ layer_at (layer_in layer.now) (chars key.now) version) }
{
    match layer.get(key, version) {
        Some(value) => copy(alloc, value),
        None => Ok(Data::Undefined),
    }
}

/// The same of a word as the key, in version 2.
pub fn layer_word(alloc: Global, layer: &Layer, key: &str) -> Result<Data, OutOfMemory>
    requires told { IsSome (seen layer.now) }
    requires ascii { IsTrue (is_all_ascii key.now) }
    ensures { IfOk result (λ made. tree_of made ≡ layer_at (layer_in layer.now) key.now 2) }
{
    layer_at(alloc, layer, key, 2)
}

/// The cookie that the fields ask for, Undefined where there is none.
pub fn cookie_field(alloc: Global, page: &Page, fields: &Data) -> Result<Data, OutOfMemory>
    ensures { IfOk result (λ made.
        tree_of made ≡ cookie_field (page_of page.now) (tree_of fields.now)) }
{
    let name = text_field(alloc, fields, "name")?;
    match cookie_at(page, &name) {
        Some(value) => Ok(Data::Text(decoded_if(alloc, fields, value)?)),
        None => Ok(Data::Undefined),
    }
}

// The first value of a cookie.
fn cookie_at<'a>(page: &'a Page, name: &Text) -> Option<&'a Text>
    ensures { option_map (λ value. value.now) result ≡ spec.cookie_at (page_of page.now) name.now }
{
    match page.cookies.get(name.as_str()) {
        Some(values) => values.get(0),
        None => None,
    }
}

// A cookie's value, decoded where the fields ask for that.
fn decoded_if(alloc: Global, fields: &Data, value: &Text) -> Result<Text, OutOfMemory>
    ensures { IfOk result (λ made. made ≡ spec.decoded_if (tree_of fields.now) value.now) }
{
    if is_set(alloc, fields, "decodeCookie")? {
        percent_decoded(alloc, value)
    } else {
        value.copy(alloc)
    }
}

// A text with its `%XX` read; what is then no UTF-8 is replaced.
fn percent_decoded(alloc: Global, value: &Text) -> Result<Text, OutOfMemory>
    ensures { IfOk result (λ made. made ≡ spec.percent_decoded value.now) }
{
    let bytes = value.as_str().as_bytes();
    let decoded = percent_decode(bytes).decode_utf8_lossy(alloc)?;
    Text::from_str(alloc, decoded.as_str())
}

/// The global variable that the fields ask for, Undefined where there is none.
pub fn global_field(alloc: Global, page: &Page, fields: &Data) -> Result<Data, OutOfMemory>
    ensures { IfOk result (λ made.
        tree_of made ≡ global_field (page_of page.now) (tree_of fields.now)) }
{
    let name = text_field(alloc, fields, "name")?;
    match get(&page.globals, name.as_str()) {
        Some(value) => copy(alloc, value),
        None => Ok(Data::Undefined),
    }
}
