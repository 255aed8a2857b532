ghost use Rattle.std.specs.Prelude.{◌≡◌, ◌-◌, ◌++◌, OnOk, length, take, drop, reverse, map};
ghost use Rattle.gtm_data.specs.Tree.{tree_of};
ghost use Rattle.data_layer.specs.Command.{after_method};

use crate::commands::Method;
use gtm_base::OutOfMemory;
use gtm_data::{Data, Items, copy};
use std::alloc::Global;

/// Does to a List what a method does with these items. Where memory is wanting, the List is left
/// half changed.
#[tactic(auto, using(crate::proofs::AfterMethods::trees_after_methods))]
pub fn run_method(
    alloc: Global,
    method: Method,
    items: &[Data],
    list: &mut Items,
) -> Result<(), OutOfMemory>
    ensures { OnOk result
        (map tree_of list.new
        ≡ after_method method (map tree_of items.now) (map tree_of list.old)) }
{
    match method {
        Method::Push => push_all(alloc, items, list)?,
        Method::Pop => drop_last(list),
        Method::Shift => drop_first(list),
        Method::Unshift => unshift_all(alloc, items, list)?,
        Method::Reverse => list.reverse(),
    }
    Ok(())
}

// Puts a copy of each item behind the last, in order.
fn push_all(alloc: Global, items: &[Data], list: &mut Items) -> Result<(), OutOfMemory>
    ensures { OnOk result (list.new ≡ list.old ++ items.now) }
{
    for item in items {
        list.push(copy(alloc, item)?)?;
    }
    Ok(())
}

// Puts a copy of each item before the first, in order. The old ones are turned round twice, and not
// moved up once for each new one.
fn unshift_all(alloc: Global, items: &[Data], list: &mut Items) -> Result<(), OutOfMemory>
    ensures { OnOk result (list.new ≡ items.now ++ list.old) }
{
    list.reverse();
    push_backwards(alloc, items, list)?;
    list.reverse();
    Ok(())
}

// Puts a copy of each item behind the last, from the last one on.
fn push_backwards(alloc: Global, items: &[Data], list: &mut Items) -> Result<(), OutOfMemory>
    ensures { OnOk result (list.new ≡ list.old ++ reverse items.now) }
{
    for item in items.iter().rev() {
        list.push(copy(alloc, item)?)?;
    }
    Ok(())
}

fn drop_last(list: &mut Items)
    ensures { list.new ≡ take (length list.old - 1) list.old }
{
    let _last = list.pop();
}

fn drop_first(list: &mut Items)
    ensures { list.new ≡ drop 1 list.old }
{
    if !list.is_empty() {
        let _first = list.remove(0);
    }
}
