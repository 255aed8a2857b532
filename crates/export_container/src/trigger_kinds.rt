ghost use Rattle.std.specs.Prelude.{◌≡◌, option_map, IfOk, IfSome, IsTrue};
ghost use Rattle.gtm_base.specs.Ascii.{is_all_ascii};
ghost use Rattle.folded_words.specs.Words.{among};
ghost use Rattle.export_container.specs.Triggers.{event_words, is_filled, timer_event, event_kind};
ghost use Rattle.export_container.specs.Triggers.{trigger_kind};

use export_entries::WrittenTrigger;
use export_fields::{ParamKind, WrittenParam};
use export_model::TriggerKind;
use export_names::word_text;
use folded_words::folded;
use gtm_base::{OutOfMemory, Text};
use std::alloc::Global;

/// When a trigger is looked at, by its type without underscores and in lower case. Fails where
/// memory is wanting.
pub fn trigger_kind(alloc: Global, written: &WrittenTrigger) -> Result<TriggerKind, OutOfMemory>
    ensures { IfOk result (λ made. made ≡ trigger_kind written.now) }
{
    let word = folded(alloc, written.kind.as_str())?;
    if word.is_word("timer") {
        Ok(TriggerKind::Event(timer_event(alloc, &written.event_name)?))
    } else if word.is_word("customevent") {
        Ok(TriggerKind::Custom)
    } else if word.is_word("triggergroup") {
        Ok(TriggerKind::Group)
    } else {
        event_kind(alloc, &written.kind, &word)
    }
}

// The kind of a trigger of a type that holds at an event of its own, and else of none.
fn event_kind(alloc: Global, kind: &Text, word: &Text) -> Result<TriggerKind, OutOfMemory>
    ensures { IfOk result (λ made. made ≡ event_kind kind.now word.now) }
{
    match event_named(word) {
        Some(event) => Ok(TriggerKind::Event(word_text(alloc, event)?)),
        None => Ok(TriggerKind::Never(kind.copy(alloc)?)),
    }
}

// The event of a type that holds at one of its own.
fn event_named(word: &Text) -> Option<&'static str>
    ensures event { option_map (λ event. event.now) result ≡ among event_words word.now }
    ensures ascii { IfSome result (λ event. IsTrue (is_all_ascii event.now)) }
{
    if word.is_word("pageview") {
        Some("gtm.js")
    } else if word.is_word("domready") {
        Some("gtm.dom")
    } else if word.is_word("windowloaded") {
        Some("gtm.load")
    } else if word.is_word("init") {
        Some("gtm.init")
    } else if word.is_word("consentinit") {
        Some("gtm.init_consent")
    } else if word.is_word("click") {
        Some("gtm.click")
    } else if word.is_word("linkclick") {
        Some("gtm.linkClick")
    } else if word.is_word("formsubmission") {
        Some("gtm.formSubmit")
    } else if word.is_word("historychange") {
        Some("gtm.historyChange-v2")
    } else if word.is_word("jserror") {
        Some("gtm.pageError")
    } else if word.is_word("scrolldepth") {
        Some("gtm.scrollDepth")
    } else if word.is_word("elementvisibility") {
        Some("gtm.elementVisibility")
    } else if word.is_word("youtubevideo") {
        Some("gtm.video")
    } else {
        None
    }
}

// The name of a timer's events.
fn timer_event(alloc: Global, event_name: &Option<WrittenParam>) -> Result<Text, OutOfMemory>
    ensures { IfOk result (λ made. made ≡ timer_event event_name.now) }
{
    match event_name {
        Some(param) if is_filled(param) => param.value.copy(alloc),
        _ => word_text(alloc, "gtm.timer"),
    }
}

// Whether a parameter is a text that is not empty.
fn is_filled(param: &WrittenParam) -> bool
    ensures { result ≡ is_filled param.now }
{
    matches!(param.kind, ParamKind::Template) && !param.value.is_word("")
}
