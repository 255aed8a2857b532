ghost use Rattle.std.specs.Prelude.{◌≡◌, codes};
ghost use Rattle.serde_json.specs.View.{view};
ghost use Rattle.export_fields.specs.Fault.{Reads, Fails};

use export_fields::{Entry, ReadEnd, WordList, WrittenParam, object, param_at, word};
use gtm_base::Text;
use serde_json::Value;
use std::alloc::Global;

/// How the case of a variable's text is changed. Absent is the first.
#[derive(Clone, Copy, Debug, PartialEq, Eq)]
pub enum WrittenCase {
    AsItIs,
    Lower,
    Upper,
}

impl WordList for WrittenCase {
    ghost use Rattle.export_entries.specs.Formats.{case_named};
    ghost use Rattle.export_entries.specs.declared.formats.WrittenCase.TheVariants.{AsItIs};

    ghost named = { case_named };

    ghost absent = { AsItIs };

    fn named(word: &Text) -> Option<WrittenCase> {
        if word.is_word("none") {
            Some(WrittenCase::AsItIs)
        } else if word.is_word("lowercase") {
            Some(WrittenCase::Lower)
        } else if word.is_word("uppercase") {
            Some(WrittenCase::Upper)
        } else {
            None
        }
    }

    fn absent() -> WrittenCase {
        WrittenCase::AsItIs
    }
}

/// A variable's format: its case, and what stands for null, undefined, true and false.
#[derive(Drop)]
pub struct WrittenFormat {
    pub case: WrittenCase,
    pub null: Option<WrittenParam>,
    pub undefined: Option<WrittenParam>,
    pub yes: Option<WrittenParam>,
    pub no: Option<WrittenParam>,
}

impl Entry for WrittenFormat {
    ghost use Rattle.export_entries.specs.Formats.{format_fault, written_format};

    ghost fault = { format_fault };

    ghost made = { written_format };

    #[tactic(auto, unfolding(crate::specs::Formats::format_fault, crate::specs::Formats::written_format))]
    fn read(alloc: Global, value: &Value) -> Result<WrittenFormat, ReadEnd> {
        object(alloc, value)?;
        let case = word(alloc, value, "caseConversionType")?;
        let null = param_at(alloc, value, "convertNullToValue")?;
        let undefined = param_at(alloc, value, "convertUndefinedToValue")?;
        let yes = param_at(alloc, value, "convertTrueToValue")?;
        let no = param_at(alloc, value, "convertFalseToValue")?;
        Ok(WrittenFormat {
            case,
            null,
            undefined,
            yes,
            no,
        })
    }
}
