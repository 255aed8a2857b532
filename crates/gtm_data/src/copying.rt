ghost use Rattle.std.specs.Prelude.{◌≡◌, IfOk};

use crate::data::{Data, Items, Members};
use gtm_base::OutOfMemory;
use std::alloc::Global;

/// A second value equal to this one.
#[cycle(copy)]
pub fn copy(alloc: Global, value: &Data) -> Result<Data, OutOfMemory>
    ensures { IfOk result (λ made. made ≡ value.now) }
{
    match value {
        Data::Undefined => Ok(Data::Undefined),
        Data::Null => Ok(Data::Null),
        Data::Bool(truth) => Ok(Data::Bool(*truth)),
        Data::Whole(number) => Ok(Data::Whole(*number)),
        Data::Text(text) => Ok(Data::Text(text.copy(alloc)?)),
        Data::List(items) => Ok(Data::List(copy_items(alloc, items)?)),
        Data::Map(members) => Ok(Data::Map(copy_members(alloc, members)?)),
        Data::Foreign => Ok(Data::Foreign),
        Data::Callback(number) => Ok(Data::Callback(*number)),
    }
}

#[cycle(copy)]
fn copy_items(alloc: Global, items: &Items) -> Result<Items, OutOfMemory>
    ensures { IfOk result (λ made. made ≡ items.now) }
{
    let mut copies = Items::new(alloc);
    for item in items.as_slice() {
        copies.push(copy(alloc, item)?)?;
    }
    Ok(copies)
}

#[cycle(copy)]
fn copy_members(alloc: Global, members: &Members) -> Result<Members, OutOfMemory>
    ensures { IfOk result (λ made. made ≡ members.now) }
{
    let mut copies = Members::new(alloc);
    for member in members.as_slice() {
        let key = member.0.copy(alloc)?;
        copies.push(key, copy(alloc, &member.1)?)?;
    }
    Ok(copies)
}
