ghost use Rattle.std.specs.Prelude.{◌≡◌, map, IfOk};
ghost use Rattle.export_container.specs.BuiltIns.{built_in_of};

use export_entries::{WrittenBuiltIn, WrittenBuiltIns};
use export_model::{BuiltIn, BuiltIns};
use gtm_base::OutOfMemory;
use std::alloc::Global;

/// The built-in variables that written ones stand for, in order. Fails where memory is wanting.
pub fn built_ins_of(alloc: Global, written: &WrittenBuiltIns) -> Result<BuiltIns, OutOfMemory>
    ensures { IfOk result (λ made. made ≡ map built_in_of written.now) }
{
    let mut made = BuiltIns::new(alloc);
    for built_in in written.as_slice() {
        made.push(built_in_of(alloc, built_in)?)?;
    }
    Ok(made)
}

// The built-in variable that a written one stands for.
fn built_in_of(alloc: Global, written: &WrittenBuiltIn) -> Result<BuiltIn, OutOfMemory>
    ensures { IfOk result (λ made. made ≡ built_in_of written.now) }
{
    let name = written.name.copy(alloc)?;
    let word = written.kind.copy(alloc)?;
    Ok(BuiltIn { name, word })
}
