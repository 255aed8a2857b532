ghost use Rattle.std.specs.Prelude.{◌≡◌, codes};
ghost use Rattle.serde_json.specs.View.{view};
ghost use Rattle.export_fields.specs.Fault.{Reads, Fails};

use crate::conditions::WrittenConditions;
use export_fields::{
    Entry, ReadEnd, WrittenParam, WrittenParams, list_of, object, param_at, params_at,
    required_text, text,
};
use gtm_base::{ListOf, Text};
use serde_json::Value;
use std::alloc::Global;

/// A trigger as it is written.
#[derive(Drop)]
pub struct WrittenTrigger {
    pub id: Text,
    pub kind: Text,
    pub name: Text,
    /// Its three lists of conditions.
    pub custom: WrittenConditions,
    pub filter: WrittenConditions,
    pub auto: WrittenConditions,
    pub event_name: Option<WrittenParam>,
    pub params: WrittenParams,
}

/// Triggers, in order.
pub type WrittenTriggers = ListOf<WrittenTrigger>;

impl Entry for WrittenTrigger {
    ghost use Rattle.export_entries.specs.Triggers.{trigger_fault, written_trigger};

    ghost fault = { trigger_fault };

    ghost made = { written_trigger };

    #[tactic(auto, unfolding(crate::specs::Triggers::trigger_fault, crate::specs::Triggers::written_trigger))]
    fn read(alloc: Global, value: &Value) -> Result<WrittenTrigger, ReadEnd> {
        object(alloc, value)?;
        let id = required_text(alloc, value, "triggerId")?;
        let kind = required_text(alloc, value, "type")?;
        let name = text(alloc, value, "name")?;
        let custom = list_of(alloc, value, "customEventFilter")?;
        let filter = list_of(alloc, value, "filter")?;
        let auto = list_of(alloc, value, "autoEventFilter")?;
        let event_name = param_at(alloc, value, "eventName")?;
        let params = params_at(alloc, value, "parameter")?;
        Ok(WrittenTrigger {
            id,
            kind,
            name,
            custom,
            filter,
            auto,
            event_name,
            params,
        })
    }
}
