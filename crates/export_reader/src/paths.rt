ghost use Rattle.std.specs.Prelude.{◌≡◌, option_map, IfOk};
ghost use Rattle.export_reader.specs.Rules.{entry_path, in_version};

use export_fields::{index_before, key_before};
use gtm_base::{OutOfMemory, Text};
use std::alloc::Global;

/// The path from the top of what has this path from the container version.
pub fn in_version(alloc: Global, path: &Option<Text>) -> Result<Option<Text>, OutOfMemory>
    ensures { IfOk result (λ whole. whole ≡ in_version path.now) }
{
    match path {
        Some(path) => Ok(Some(key_before(alloc, "containerVersion", path)?)),
        None => Ok(None),
    }
}

/// The path of the entry at this place of the list at a key of the container version.
pub fn entry_path(alloc: Global, key: &str, at: Option<usize>) -> Result<Option<Text>, OutOfMemory>
    ensures { IfOk result (λ path. path ≡ option_map (entry_path key.now) at) }
{
    match at {
        Some(at) => {
            let here = index_before(alloc, at, &Text::new(alloc))?;
            let list = key_before(alloc, key, &here)?;
            Ok(Some(key_before(alloc, "containerVersion", &list)?))
        },
        None => Ok(None),
    }
}
