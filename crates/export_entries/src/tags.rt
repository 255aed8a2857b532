ghost use Rattle.std.specs.Prelude.{◌≡◌, codes};
ghost use Rattle.serde_json.specs.View.{view};
ghost use Rattle.export_fields.specs.Fault.{Reads, Fails};

use crate::turns::{WrittenTurn, turn_of};
use export_fields::{
    Entry, ReadEnd, WrittenParam, WrittenParams, object, param_at, params_at, required_text, texts,
};
use gtm_base::{ListOf, Text, Texts};
use serde_json::Value;
use std::alloc::Global;

/// A tag as it is written: triggers go by their numbers, and other tags by their names.
#[derive(Drop)]
pub struct WrittenTag {
    pub id: Text,
    pub name: Text,
    pub kind: Text,
    pub params: WrittenParams,
    pub firing: Texts,
    pub blocking: Texts,
    pub priority: Option<WrittenParam>,
    pub turn: WrittenTurn,
}

/// Tags, in order.
pub type WrittenTags = ListOf<WrittenTag>;

impl Entry for WrittenTag {
    ghost use Rattle.export_entries.specs.Tags.{tag_fault, written_tag};

    ghost fault = { tag_fault };

    ghost made = { written_tag };

    #[tactic(auto, unfolding(crate::specs::Tags::tag_fault, crate::specs::Tags::written_tag))]
    fn read(alloc: Global, value: &Value) -> Result<WrittenTag, ReadEnd> {
        object(alloc, value)?;
        let id = required_text(alloc, value, "tagId")?;
        let name = required_text(alloc, value, "name")?;
        let kind = required_text(alloc, value, "type")?;
        let params = params_at(alloc, value, "parameter")?;
        let firing = texts(alloc, value, "firingTriggerId")?;
        let blocking = texts(alloc, value, "blockingTriggerId")?;
        let priority = param_at(alloc, value, "priority")?;
        let turn = turn_of(alloc, value)?;
        Ok(WrittenTag {
            id,
            name,
            kind,
            params,
            firing,
            blocking,
            priority,
            turn,
        })
    }
}
