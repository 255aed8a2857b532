ghost use Rattle.std.specs.Prelude.{◌≡◌, codes};
ghost use Rattle.serde_json.specs.View.{view};
ghost use Rattle.export_fields.specs.Fault.{Reads, Fails};

use crate::formats::WrittenFormat;
use export_fields::{Entry, ReadEnd, WrittenParams, object, object_at, params_at, required_text};
use gtm_base::{ListOf, Text};
use serde_json::Value;
use std::alloc::Global;

/// A variable as it is written.
#[derive(Drop)]
pub struct WrittenVariable {
    pub id: Text,
    pub name: Text,
    pub kind: Text,
    pub params: WrittenParams,
    pub format: Option<WrittenFormat>,
}

/// Variables, in order.
pub type WrittenVariables = ListOf<WrittenVariable>;

impl Entry for WrittenVariable {
    ghost use Rattle.export_entries.specs.Variables.{variable_fault, written_variable};

    ghost fault = { variable_fault };

    ghost made = { written_variable };

    #[tactic(auto, unfolding(crate::specs::Variables::variable_fault, crate::specs::Variables::written_variable))]
    fn read(alloc: Global, value: &Value) -> Result<WrittenVariable, ReadEnd> {
        object(alloc, value)?;
        let id = required_text(alloc, value, "variableId")?;
        let name = required_text(alloc, value, "name")?;
        let kind = required_text(alloc, value, "type")?;
        let params = params_at(alloc, value, "parameter")?;
        let format = object_at(alloc, value, "formatValue")?;
        Ok(WrittenVariable {
            id,
            name,
            kind,
            params,
            format,
        })
    }
}

/// A built-in variable as it is written.
#[derive(Drop)]
pub struct WrittenBuiltIn {
    pub kind: Text,
    pub name: Text,
}

/// Built-in variables, in order.
pub type WrittenBuiltIns = ListOf<WrittenBuiltIn>;

impl Entry for WrittenBuiltIn {
    ghost use Rattle.export_entries.specs.Variables.{built_in_fault, written_built_in};

    ghost fault = { built_in_fault };

    ghost made = { written_built_in };

    #[tactic(auto, unfolding(crate::specs::Variables::built_in_fault, crate::specs::Variables::written_built_in))]
    fn read(alloc: Global, value: &Value) -> Result<WrittenBuiltIn, ReadEnd> {
        object(alloc, value)?;
        let kind = required_text(alloc, value, "type")?;
        let name = required_text(alloc, value, "name")?;
        Ok(WrittenBuiltIn { kind, name })
    }
}
