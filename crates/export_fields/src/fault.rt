ghost use Rattle.std.specs.Prelude.{◌≡◌, [], Some, Option, List, ℕ, option_map, IfOk};
ghost use Rattle.export_fields.specs.Fault.{Fails, IsOutOfMemory, in_key, in_index};

use gtm_base::{OutOfMemory, Text};
use std::alloc::Global;

/// Why nothing was read.
#[derive(Debug, Drop)]
pub enum ReadEnd {
    /// Memory was wanting.
    OutOfMemory,
    /// The value at this JSON pointer is of another kind, or an object without a field that it has
    /// to have. It is the first one. The pointer goes from the value that was read.
    Broken { path: Text },
}

impl From<OutOfMemory> for ReadEnd {
    ghost from_gives = { λ _ end. IsOutOfMemory end };

    fn from(_: OutOfMemory) -> ReadEnd {
        ReadEnd::OutOfMemory
    }
}

/// The fault of the value itself. Takes no memory.
pub fn broken_here(alloc: Global) -> ReadEnd
    ensures { Fails result (Some []) }
{
    ReadEnd::Broken {
        path: Text::new(alloc),
    }
}

/// The fault of the value at the key. `OutOfMemory` where memory is wanting for its path.
pub fn broken_at(alloc: Global, key: &str) -> ReadEnd
    ensures { Fails result (Some (in_key key.now [])) }
{
    in_key(alloc, key, broken_here(alloc))
}

/// The JSON pointer that goes to the member with the key, a word without `~` and `/`, and on from
/// there by the path.
pub fn key_before(alloc: Global, key: &str, path: &Text) -> Result<Text, OutOfMemory>
    ensures { IfOk result (λ whole. whole ≡ in_key key.now path.now) }
{
    let mut whole = Text::new(alloc);
    whole.push('/')?;
    whole.push_str(key)?;
    whole.push_str(path.as_str())?;
    Ok(whole)
}

/// The JSON pointer that goes to the item at the place, and on from there by the path.
pub fn index_before(alloc: Global, at: usize, path: &Text) -> Result<Text, OutOfMemory>
    ensures { IfOk result (λ whole. whole ≡ in_index at path.now) }
{
    let mut whole = Text::new(alloc);
    whole.push('/')?;
    whole.push_unsigned(at as u64)?;
    whole.push_str(path.as_str())?;
    Ok(whole)
}

/// The end of reading the value at the key, seen from the object: the same fault, with the key
/// before its path. `OutOfMemory` where memory is wanting for the path.
pub fn in_key(alloc: Global, key: &str, end: ReadEnd) -> ReadEnd
    ensures { (fault : Option (List ℕ)) → Fails end fault
        → Fails result (option_map (in_key key.now) fault) }
{
    match end {
        ReadEnd::OutOfMemory => ReadEnd::OutOfMemory,
        ReadEnd::Broken { path } => match key_before(alloc, key, &path) {
            Ok(path) => ReadEnd::Broken { path },
            Err(_) => ReadEnd::OutOfMemory,
        },
    }
}

/// The end of reading the item at the place, seen from the list: the same fault, with the place
/// before its path. `OutOfMemory` where memory is wanting for the path.
pub fn in_index(alloc: Global, at: usize, end: ReadEnd) -> ReadEnd
    ensures { (fault : Option (List ℕ)) → Fails end fault
        → Fails result (option_map (in_index at) fault) }
{
    match end {
        ReadEnd::OutOfMemory => ReadEnd::OutOfMemory,
        ReadEnd::Broken { path } => match index_before(alloc, at, &path) {
            Ok(path) => ReadEnd::Broken { path },
            Err(_) => ReadEnd::OutOfMemory,
        },
    }
}
