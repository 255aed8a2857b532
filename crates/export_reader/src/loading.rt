ghost use Rattle.std.specs.Prelude.{◌≡◌, [], None, Some, IfOk, IfErr, OnOk};
ghost use Rattle.export_model.specs.Sound.{Sound};
ghost use Rattle.export_reader.specs.Container.{container_in};
ghost use Rattle.export_reader.specs.FirstBroken.{first_broken, export_rules, Refuses};

use crate::top::{ExportEnd, MAX_EXPORT};
use crate::versions::judge_tree;
use export_model::Container;
use gtm_base::Text;
use gtm_data::json_of;
use std::alloc::Global;

/// What was read of an export.
#[derive(Debug, Drop)]
pub struct Loaded {
    /// The container, in which each name is a number.
    pub container: Container,
}

/// The container of an export's bytes. `Refused` comes exactly where a rule is broken, and names
/// the least one and its first path.
#[tactic(auto, unfolding(crate::specs::FirstBroken::export_rules, crate::specs::FirstBroken::rules_of))]
pub fn read_export(alloc: Global, bytes: &[u8]) -> Result<Loaded, ExportEnd>
    ensures ok { OnOk result (first_broken bytes.now ≡ None) }
    ensures container { IfOk result (λ loaded. container_in bytes.now ≡ Some loaded.container) }
    ensures sound { IfOk result (λ loaded. Sound loaded.container) }
    ensures refused { IfErr result (Refuses (export_rules bytes.now)) }
{
    if bytes.len() > MAX_EXPORT {
        return Err(refused_here(alloc, 1));
    }
    match json_of(alloc, bytes)? {
        None => Err(refused_here(alloc, 2)),
        Some(tree) => judge_tree(alloc, &tree),
    }
}

// A refusal of the whole.
fn refused_here(alloc: Global, rule: u8) -> ExportEnd
    ensures { result ≡ ExportEnd.Refused rule [] }
{
    ExportEnd::Refused {
        rule,
        path: Text::new(alloc),
    }
}
