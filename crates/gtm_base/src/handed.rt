ghost use Rattle.std.specs.Prelude.{◌≡◌, ◌++◌, ◌∷◌, [], OnOk};
ghost use Rattle.std.specs.Str.{chars};
ghost use Rattle.gtm_base.specs.Outside.{AddsName};

use crate::{OutOfMemory, Text, Texts};
use std::alloc::Global;

/// Keeps a name behind the others, or gives the list up where memory is wanting.
pub fn keep_name(alloc: Global, names: &mut Option<Texts>, name: &str)
    ensures { AddsName names.old names.new (chars name.now) }
{
    let kept = match names {
        None => false,
        Some(list) => push_name(alloc, list, name).is_ok(),
    };
    if !kept {
        *names = None;
    }
}

fn push_name(alloc: Global, names: &mut Texts, name: &str) -> Result<(), OutOfMemory>
    ensures { OnOk result (names.new ≡ names.old ++ chars name.now ∷ []) }
{
    names.push(Text::from_str(alloc, name)?)
}
