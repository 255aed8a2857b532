ghost use Rattle.std.specs.Prelude.{◌≡◌, [], None, Some, IfOk, option_map, codes, if◌then◌else◌};
ghost use Rattle.serde_json.specs.View.{view};
ghost use Rattle.export_fields.specs.Fault.{in_key};
ghost use Rattle.export_model.specs.Sound.{Sound};
ghost use Rattle.export_reader.specs.Container.{loaded_at};
ghost use Rattle.export_reader.specs.FirstBroken.{tree_rules, version_rules, Judges};
ghost use Rattle.export_reader.specs.Rules as rules;

use crate::contexts::not_web;
use crate::entries::judge_entries;
use crate::loading::Loaded;
use crate::top::ExportEnd;
use export_entries::read_entries;
use export_fields::{ReadEnd, key_before};
use export_templates::read_templates;
use gtm_base::{OutOfMemory, Text};
use gtm_data::{DataEnd, check_json};
use serde_json::Value;
use std::alloc::Global;

/// The container of an export's tree, or the first of the rules from 3 on that it breaks.
#[tactic(auto, unfolding(crate::specs::FirstBroken::tree_rules))]
pub fn judge_tree(alloc: Global, tree: &Value) -> Result<Loaded, ExportEnd>
    ensures judged { Judges result (tree_rules (view tree.now))
        (option_map loaded_at (rules.version_in (view tree.now))) }
    ensures sound { IfOk result (λ loaded. Sound loaded.container) }
{
    match check_json(alloc, tree) {
        Err(DataEnd::OutOfMemory) => return Err(ExportEnd::OutOfMemory),
        Err(DataEnd::NotWhole { path }) => return Err(ExportEnd::Refused { rule: 3, path }),
        Err(DataEnd::TooDeep { path }) => return Err(ExportEnd::Refused { rule: 4, path }),
        Ok(()) => {},
    }
    if !is_format_two(tree) {
        let path = field_path(alloc, "exportFormatVersion")?;
        return Err(ExportEnd::Refused { rule: 5, path });
    }
    match version_in(tree) {
        Some(version) => judge_version(alloc, version),
        None => {
            let path = field_path(alloc, "containerVersion")?;
            Err(ExportEnd::Refused { rule: 6, path })
        },
    }
}

// The path of a field at the top.
fn field_path(alloc: Global, key: &str) -> Result<Text, OutOfMemory>
    ensures { IfOk result (λ path. path ≡ in_key key.now []) }
{
    key_before(alloc, key, &Text::new(alloc))
}

fn is_format_two(tree: &Value) -> bool
    ensures { (if result then None else Some (in_key (codes "exportFormatVersion") []))
        ≡ rules.other_format (view tree.now) }
{
    match tree.get("exportFormatVersion").and_then(Value::as_u64) {
        Some(number) => number == 2,
        None => false,
    }
}

// The container version, where it is an object.
fn version_in(tree: &Value) -> Option<&Value>
    ensures { option_map (λ version. view version.now) result ≡ rules.version_in (view tree.now) }
{
    match tree.get("containerVersion") {
        Some(version) if version.is_object() => Some(version),
        _ => None,
    }
}

// The container of a container version, or the first of the rules from 7 on that it breaks.
#[tactic(auto, unfolding(crate::specs::FirstBroken::version_rules))]
fn judge_version(alloc: Global, version: &Value) -> Result<Loaded, ExportEnd>
    ensures judged { Judges result (version_rules (view version.now))
        (Some (loaded_at (view version.now))) }
    ensures sound { IfOk result (λ loaded. Sound loaded.container) }
{
    if let Some(path) = not_web(alloc, version)? {
        return Err(ExportEnd::Refused { rule: 7, path });
    }
    match read_entries(alloc, version) {
        Ok(written) => {
            let readings = read_templates(alloc, &written.templates)?;
            judge_entries(alloc, &readings, &written)
        },
        Err(ReadEnd::OutOfMemory) => Err(ExportEnd::OutOfMemory),
        Err(ReadEnd::Broken { path }) => {
            let path = key_before(alloc, "containerVersion", &path)?;
            Err(ExportEnd::Refused { rule: 8, path })
        },
    }
}
