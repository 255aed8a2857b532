ghost use Rattle.std.specs.Prelude.{◌≡◌, codes};
ghost use Rattle.serde_json.specs.View.{view};
ghost use Rattle.export_fields.specs.Fault.{Reads, Fails};
ghost use Rattle.export_entries.specs.Entries.{entries_fault, written_entries};

use crate::tags::WrittenTags;
use crate::templates::WrittenTemplates;
use crate::triggers::WrittenTriggers;
use crate::variables::{WrittenBuiltIns, WrittenVariables};
use export_fields::{Entry, ReadEnd, list_of, object, object_at, text, texts};
use gtm_base::{Text, Texts};
use serde_json::Value;
use std::alloc::Global;

/// What an export says of its container itself: its public name, and what it is used in.
#[derive(Drop)]
pub struct WrittenContainer {
    pub public_id: Text,
    pub contexts: Texts,
}

impl Entry for WrittenContainer {
    ghost use Rattle.export_entries.specs.Entries.{container_fault, written_container};

    ghost fault = { container_fault };

    ghost made = { written_container };

    #[tactic(auto, unfolding(crate::specs::Entries::container_fault, crate::specs::Entries::written_container))]
    fn read(alloc: Global, value: &Value) -> Result<WrittenContainer, ReadEnd> {
        object(alloc, value)?;
        let public_id = text(alloc, value, "publicId")?;
        let contexts = texts(alloc, value, "usageContext")?;
        Ok(WrittenContainer {
            public_id,
            contexts,
        })
    }
}

/// A container version as it is written.
#[derive(Drop)]
pub struct WrittenEntries {
    pub version_id: Text,
    pub container: Option<WrittenContainer>,
    pub tags: WrittenTags,
    pub triggers: WrittenTriggers,
    pub variables: WrittenVariables,
    pub built_ins: WrittenBuiltIns,
    pub templates: WrittenTemplates,
}

/// The entries of a container version, an object. `Broken` comes at the first field that has
/// another kind than it needs: first its own fields, then those of the container, and then those of
/// the tags, triggers, variables, built-in variables and custom templates.
#[tactic(auto, unfolding(crate::specs::Entries::entries_fault, crate::specs::Entries::written_entries))]
pub fn read_entries(alloc: Global, version: &Value) -> Result<WrittenEntries, ReadEnd>
    ensures { Reads result (entries_fault (view version.now)) (written_entries (view version.now)) }
{
    let version_id = text(alloc, version, "containerVersionId")?;
    let container = object_at(alloc, version, "container")?;
    let tags = list_of(alloc, version, "tag")?;
    let triggers = list_of(alloc, version, "trigger")?;
    let variables = list_of(alloc, version, "variable")?;
    let built_ins = list_of(alloc, version, "builtInVariable")?;
    let templates = list_of(alloc, version, "customTemplate")?;
    Ok(WrittenEntries {
        version_id,
        container,
        tags,
        triggers,
        variables,
        built_ins,
        templates,
    })
}
