ghost use Rattle.std.specs.Prelude.{◌≡◌, IfOk};
ghost use Rattle.std.specs.Str.{chars};
ghost use Rattle.gtm_data.specs.Paths.{dotted};
ghost use Rattle.gtm_data.specs.Tree.{tree_of, object, entry, none};
ghost use Rattle.data_layer.specs.Layer.{nest};

use gtm_base::{OutOfMemory, Text, Texts};
use gtm_data::{Data, Members, copy};
use std::alloc::Global;

/// A copy of the value, nested in Maps under the parts of the key.
pub fn nested(alloc: Global, key: &str, value: &Data) -> Result<Data, OutOfMemory>
    ensures { IfOk result
        (λ made. tree_of made ≡ nest (dotted (chars key.now)) (tree_of value.now)) }
{
    let mut parts = parts(alloc, key)?;
    let mut made = copy(alloc, value)?;
    while let Some(part) = parts.pop() {
        made = map_of(alloc, part, made)?;
    }
    Ok(made)
}

/// The parts of a text between its dots.
pub fn parts(alloc: Global, text: &str) -> Result<Texts, OutOfMemory>
    ensures { IfOk result (λ made. made ≡ dotted (chars text.now)) }
{
    let mut parts = Texts::new(alloc);
    for part in text.split('.') {
        parts.push(Text::from_str(alloc, part)?)?;
    }
    Ok(parts)
}

// A Map with this member alone.
fn map_of(alloc: Global, key: Text, value: Data) -> Result<Data, OutOfMemory>
    ensures { IfOk result (λ made. tree_of made ≡ object (entry key (tree_of value) none)) }
{
    let mut members = Members::new(alloc);
    members.push(key, value)?;
    Ok(Data::Map(members))
}
