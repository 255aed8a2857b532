ghost use Rattle.std.specs.Prelude.{◌≡◌, [], None, Some, IfOk, option_map, codes};
ghost use Rattle.export_checks.specs.NotBuilt as built;
ghost use Rattle.export_checks.specs.NotBuilt.{first_entry};

use crate::paths::entry_path;
use export_entries::WrittenEntries;
use gtm_base::{ListOf, OutOfMemory, Text};
use std::alloc::Global;

/// The path, from the container version, of the first entry, of which none is run yet. `None` where
/// there is none. Fails where memory is wanting.
#[tactic(auto, unfolding(crate::specs::NotBuilt::not_built))]
pub fn not_built(alloc: Global, written: &WrittenEntries) -> Result<Option<Text>, OutOfMemory>
    ensures { IfOk result (λ path. path ≡ built.not_built written.now) }
{
    if !written.tags.is_empty() {
        return entry_path(alloc, "tag", Some(0));
    }
    if !written.triggers.is_empty() {
        return entry_path(alloc, "trigger", Some(0));
    }
    if !written.variables.is_empty() {
        return entry_path(alloc, "variable", Some(0));
    }
    if !written.built_ins.is_empty() {
        return entry_path(alloc, "builtInVariable", Some(0));
    }
    if !written.templates.is_empty() {
        return entry_path(alloc, "customTemplate", Some(0));
    }
    Ok(None)
}
