ghost use Rattle.std.specs.Prelude.{◌≡◌, codes};
ghost use Rattle.serde_json.specs.View.{view};
ghost use Rattle.export_fields.specs.Fault.{Reads, Fails};
ghost use Rattle.export_entries.specs.Turns.{turn_fault, written_turn};

use export_fields::{
    Entry, ParamKind, ReadEnd, WordList, WrittenParam, WrittenParams, broken_here, flag, object,
    object_at, single_at, text, whole_at, word,
};
use gtm_base::Text;
use serde_json::Value;
use std::alloc::Global;

/// How often a tag may start, as it is written. Absent is the first.
#[derive(Clone, Copy, Debug, PartialEq, Eq)]
pub enum WrittenOption {
    OncePerEvent,
    OncePerLoad,
    Unlimited,
}

impl WordList for WrittenOption {
    ghost use Rattle.export_entries.specs.Turns.{option_named};
    ghost use Rattle.export_entries.specs.declared.turns.WrittenOption.TheVariants.{OncePerEvent};

    ghost named = { option_named };

    ghost absent = { OncePerEvent };

    fn named(word: &Text) -> Option<WrittenOption> {
        if word.is_word("onceperevent") {
            Some(WrittenOption::OncePerEvent)
        } else if word.is_word("onceperload") {
            Some(WrittenOption::OncePerLoad)
        } else if word.is_word("unlimited") {
            Some(WrittenOption::Unlimited)
        } else {
            None
        }
    }

    fn absent() -> WrittenOption {
        WrittenOption::OncePerEvent
    }
}

/// Whether a tag needs consent of its own. Absent is the first.
#[derive(Clone, Copy, Debug, PartialEq, Eq)]
pub enum ConsentStatus {
    NotSet,
    NotNeeded,
    Needed,
}

impl WordList for ConsentStatus {
    ghost use Rattle.export_entries.specs.Turns.{status_named};
    ghost use Rattle.export_entries.specs.declared.turns.ConsentStatus.TheVariants.{NotSet};

    ghost named = { status_named };

    ghost absent = { NotSet };

    fn named(word: &Text) -> Option<ConsentStatus> {
        if word.is_word("notset") {
            Some(ConsentStatus::NotSet)
        } else if word.is_word("notneeded") {
            Some(ConsentStatus::NotNeeded)
        } else if word.is_word("needed") {
            Some(ConsentStatus::Needed)
        } else {
            None
        }
    }

    fn absent() -> ConsentStatus {
        ConsentStatus::NotSet
    }
}

/// A setup tag, by its name.
#[derive(Drop)]
pub struct WrittenSetup {
    pub tag: Text,
    pub stop: bool,
}

impl Entry for WrittenSetup {
    ghost use Rattle.export_entries.specs.Turns.{setup_fault, written_setup};

    ghost fault = { setup_fault };

    ghost made = { written_setup };

    #[tactic(auto, unfolding(crate::specs::Turns::setup_fault, crate::specs::Turns::written_setup))]
    fn read(alloc: Global, value: &Value) -> Result<WrittenSetup, ReadEnd> {
        object(alloc, value)?;
        let tag = text(alloc, value, "tagName")?;
        let stop = flag(alloc, value, "stopOnSetupFailure")?;
        Ok(WrittenSetup { tag, stop })
    }
}

/// A teardown tag, by its name.
#[derive(Drop)]
pub struct WrittenTeardown {
    pub tag: Text,
    pub stop: bool,
}

impl Entry for WrittenTeardown {
    ghost use Rattle.export_entries.specs.Turns.{teardown_fault, written_teardown};

    ghost fault = { teardown_fault };

    ghost made = { written_teardown };

    #[tactic(auto, unfolding(crate::specs::Turns::teardown_fault, crate::specs::Turns::written_teardown))]
    fn read(alloc: Global, value: &Value) -> Result<WrittenTeardown, ReadEnd> {
        object(alloc, value)?;
        let tag = text(alloc, value, "tagName")?;
        let stop = flag(alloc, value, "stopTeardownOnFailure")?;
        Ok(WrittenTeardown { tag, stop })
    }
}

/// The parameter of the consent types, which is a LIST.
#[derive(Drop)]
pub struct WrittenList {
    pub items: WrittenParams,
}

impl Entry for WrittenList {
    ghost use Rattle.export_entries.specs.Turns.{listed_fault, written_list};

    ghost fault = { listed_fault };

    ghost made = { written_list };

    #[tactic(auto, unfolding(crate::specs::Turns::listed_fault, crate::specs::Turns::written_list))]
    fn read(alloc: Global, value: &Value) -> Result<WrittenList, ReadEnd> {
        let param = WrittenParam::read(alloc, value)?;
        match param.kind {
            ParamKind::List => Ok(WrittenList { items: param.list }),
            _ => Err(broken_here(alloc)),
        }
    }
}

/// What a tag says of consent: its status, and the types where it names them.
#[derive(Drop)]
pub struct WrittenConsent {
    pub status: ConsentStatus,
    pub types: Option<WrittenList>,
}

impl Entry for WrittenConsent {
    ghost use Rattle.export_entries.specs.Turns.{consent_fault, written_consent};

    ghost fault = { consent_fault };

    ghost made = { written_consent };

    #[tactic(auto, unfolding(crate::specs::Turns::consent_fault, crate::specs::Turns::written_consent))]
    fn read(alloc: Global, value: &Value) -> Result<WrittenConsent, ReadEnd> {
        object(alloc, value)?;
        let status = word(alloc, value, "consentStatus")?;
        let types = object_at(alloc, value, "consentType")?;
        Ok(WrittenConsent { status, types })
    }
}

/// What a tag says of its turn in a run.
#[derive(Drop)]
pub struct WrittenTurn {
    pub option: WrittenOption,
    pub setup: Option<WrittenSetup>,
    pub teardown: Option<WrittenTeardown>,
    pub paused: bool,
    /// The first millisecond of its schedule, and the first one behind it.
    pub from_ms: Option<i64>,
    pub until_ms: Option<i64>,
    pub consent: Option<WrittenConsent>,
}

/// What a tag says of its turn, field by field from `tagFiringOption` on.
#[tactic(auto, unfolding(crate::specs::Turns::turn_fault, crate::specs::Turns::written_turn))]
pub fn turn_of(alloc: Global, value: &Value) -> Result<WrittenTurn, ReadEnd>
    ensures { Reads result (turn_fault (view value.now)) (written_turn (view value.now)) }
{
    let option = word(alloc, value, "tagFiringOption")?;
    let setup = single_at(alloc, value, "setupTag")?;
    let teardown = single_at(alloc, value, "teardownTag")?;
    let paused = flag(alloc, value, "paused")?;
    let from_ms = whole_at(alloc, value, "scheduleStartMs")?;
    let until_ms = whole_at(alloc, value, "scheduleEndMs")?;
    let consent = object_at(alloc, value, "consentSettings")?;
    Ok(WrittenTurn {
        option,
        setup,
        teardown,
        paused,
        from_ms,
        until_ms,
        consent,
    })
}
