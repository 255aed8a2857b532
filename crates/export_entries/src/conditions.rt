ghost use Rattle.std.specs.Prelude.{◌≡◌, codes};
ghost use Rattle.serde_json.specs.View.{view};
ghost use Rattle.export_fields.specs.Fault.{Reads, Fails};

use export_fields::{Entry, ReadEnd, WrittenParams, object, params_at, text};
use gtm_base::{ListOf, Text};
use serde_json::Value;
use std::alloc::Global;

/// A condition as it is written: the type of its comparison, empty where it has none, and its
/// parameters.
#[derive(Drop)]
pub struct WrittenCondition {
    pub kind: Text,
    pub params: WrittenParams,
}

/// Conditions, in order.
pub type WrittenConditions = ListOf<WrittenCondition>;

impl Entry for WrittenCondition {
    ghost use Rattle.export_entries.specs.Conditions.{condition_fault, written_condition};

    ghost fault = { condition_fault };

    ghost made = { written_condition };

    #[tactic(auto, unfolding(crate::specs::Conditions::condition_fault, crate::specs::Conditions::written_condition))]
    fn read(alloc: Global, value: &Value) -> Result<WrittenCondition, ReadEnd> {
        object(alloc, value)?;
        let kind = text(alloc, value, "type")?;
        let params = params_at(alloc, value, "parameter")?;
        Ok(WrittenCondition { kind, params })
    }
}
