ghost use Rattle.std.specs.Prelude.{◌≡◌, ◌++◌, IfOk, OnOk};
ghost use Rattle.gtm_triggers.specs.Merged as spec;

use crate::TriggerIds;
use gtm_base::OutOfMemory;
use std::alloc::Global;

/// The places of two ascending lists as one. Fails where memory is wanting.
pub fn merged(alloc: Global, xs: &[u32], ys: &[u32]) -> Result<TriggerIds, OutOfMemory>
    ensures { IfOk result (λ made. made ≡ spec.merged xs.now ys.now) }
{
    let mut made = TriggerIds::new(alloc);
    let mut rest = xs;
    for y in ys {
        rest = push_less(&mut made, rest, *y)?;
        made.push(*y)?;
    }
    push_all(&mut made, rest)?;
    Ok(made)
}

// Puts those before the first that is not less behind, and gives the others.
fn push_less<'a>(made: &mut TriggerIds, xs: &'a [u32], bound: u32) -> Result<&'a [u32], OutOfMemory>
    ensures pushed { OnOk result (made.new ≡ made.old ++ spec.less_than bound xs.now) }
    ensures rest { IfOk result (λ rest. rest.now ≡ spec.from_on bound xs.now) }
{
    let mut rest = xs;
    while let [x, behind @ ..] = rest {
        if *x >= bound {
            break;
        }
        made.push(*x)?;
        rest = behind;
    }
    Ok(rest)
}

// Puts all of them behind.
fn push_all(made: &mut TriggerIds, xs: &[u32]) -> Result<(), OutOfMemory>
    ensures { OnOk result (made.new ≡ made.old ++ xs.now) }
{
    for x in xs {
        made.push(*x)?;
    }
    Ok(())
}
