ghost use Rattle.std.specs.Prelude.{◌≡◌, IfOk};
ghost use Rattle.gtm_data.specs.Tree.{tree_of};
ghost use Rattle.variable_kinds.specs.Kinds.{value_by};
ghost use Rattle.variable_kinds.specs.Moment.{kept_at};

use crate::Names;
use crate::built_ins::built_in;
use export_model::NameRef;
use gtm_base::OutOfMemory;
use gtm_data::{Data, copy};
use std::alloc::Global;

/// The value of a name, by what is kept.
pub fn name_value(names: &Names, name: NameRef) -> Result<Data, OutOfMemory>
    ensures { IfOk result (λ made. tree_of made ≡ value_by names.now name) }
{
    match name {
        NameRef::Variable(at) => kept_at(names.alloc, names.kept, at),
        NameRef::BuiltIn(at) => built_in(names, at),
        NameRef::EventName => Ok(Data::Text(names.event.copy(names.alloc)?)),
        NameRef::Nothing => Ok(Data::Undefined),
    }
}

// The value that is kept at a place, Undefined where none is.
fn kept_at(alloc: Global, kept: &[Option<Data>], at: u32) -> Result<Data, OutOfMemory>
    ensures { IfOk result (λ made. tree_of made ≡ kept_at kept.now at) }
{
    match kept.get(at as usize) {
        Some(Some(value)) => copy(alloc, value),
        _ => Ok(Data::Undefined),
    }
}
