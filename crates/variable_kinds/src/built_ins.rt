ghost use Rattle.std.specs.Prelude.{◌≡◌, IfOk, IfSome, IsTrue, option_map, slice_get};
ghost use Rattle.folded_words.specs.Words.{among};
ghost use Rattle.gtm_base.specs.Ascii.{is_all_ascii};
ghost use Rattle.gtm_data.specs.Tree.{tree_of};
ghost use Rattle.variable_kinds.specs.BuiltIns.{built_in_value, element_words, source_value};
ghost use Rattle.variable_kinds.specs.BuiltIns.{source_words, word_value};
ghost use Rattle.variable_kinds.specs.Moment.{moment_of};

use crate::Names;
use crate::addresses::known_part;
use crate::components::{Component, only};
use crate::sources::layer_word;
use folded_words::folded;
use gtm_base::{OutOfMemory, Text};
use gtm_data::Data;

/// Where the value of a built-in variable comes from, but for those of the data layer.
#[derive(Clone, Copy, Debug, PartialEq, Eq)]
pub enum Source {
    PageUrl,
    PageHostname,
    PagePath,
    Referrer,
    EventName,
    ContainerId,
}

/// The value of the built-in variable at a place; Undefined where there is none.
pub fn built_in(names: &Names, at: u32) -> Result<Data, OutOfMemory>
    ensures { IfOk result (λ made. tree_of made
        ≡ built_in_value (moment_of names.now)
        (slice_get names.now.container.now.built_ins at)) }
{
    match names.container.built_ins.get(at as usize) {
        Some(built_in) => word_value(names, &folded(names.alloc, built_in.word.as_str())?),
        None => Ok(Data::Undefined),
    }
}

// The value of a built-in variable by its word.
fn word_value(names: &Names, word: &Text) -> Result<Data, OutOfMemory>
    ensures { IfOk result (λ made. tree_of made ≡ word_value (moment_of names.now) word.now) }
{
    if let Some(key) = element_key(word) {
        return layer_word(names.alloc, names.layer, key);
    }
    match source_of(word) {
        Some(source) => source_value(names, source),
        None => Ok(Data::Undefined),
    }
}

// The key of the data layer at which what was clicked or sent is told.
fn element_key(word: &Text) -> Option<&'static str>
    ensures key { option_map (λ key. key.now) result ≡ among element_words word.now }
    ensures ascii { IfSome result (λ key. IsTrue (is_all_ascii key.now)) }
{
    if word.is_word("clickclasses") {
        Some("gtm.elementClasses")
    } else if word.is_word("clickid") {
        Some("gtm.elementId")
    } else if word.is_word("clicktarget") {
        Some("gtm.elementTarget")
    } else if word.is_word("clickurl") {
        Some("gtm.elementUrl")
    } else if word.is_word("formclasses") {
        Some("gtm.elementClasses")
    } else if word.is_word("formid") {
        Some("gtm.elementId")
    } else if word.is_word("formtarget") {
        Some("gtm.elementTarget")
    } else if word.is_word("formurl") {
        Some("gtm.elementUrl")
    } else {
        None
    }
}

fn source_of(word: &Text) -> Option<Source>
    ensures { result ≡ among source_words word.now }
{
    if word.is_word("pageurl") {
        Some(Source::PageUrl)
    } else if word.is_word("pagehostname") {
        Some(Source::PageHostname)
    } else if word.is_word("pagepath") {
        Some(Source::PagePath)
    } else if word.is_word("referrer") {
        Some(Source::Referrer)
    } else if word.is_word("event") {
        Some(Source::EventName)
    } else if word.is_word("containerid") {
        Some(Source::ContainerId)
    } else {
        None
    }
}

fn source_value(names: &Names, source: Source) -> Result<Data, OutOfMemory>
    ensures { IfOk result (λ made. tree_of made ≡ source_value (moment_of names.now) source) }
{
    match source {
        Source::PageUrl => page_part(names, Component::Url),
        Source::PageHostname => page_part(names, Component::Host),
        Source::PagePath => page_part(names, Component::Path),
        Source::Referrer => referrer(names),
        Source::EventName => Ok(Data::Text(names.event.copy(names.alloc)?)),
        Source::ContainerId => Ok(Data::Text(names.container.public_id.copy(names.alloc)?)),
    }
}

ghost use Rattle.variable_kinds.specs.Addresses as address;
ghost use Rattle.variable_kinds.specs.Addresses.{only};
ghost use Rattle.variable_kinds.specs.declared.components.Component.TheVariants as part;

fn page_part(names: &Names, component: Component) -> Result<Data, OutOfMemory>
    ensures { IfOk result (λ made. tree_of made ≡ address.known_part (only component)
        names.now.page.now.url names.now.page.now.url_address) }
{
    let page = names.page;
    known_part(names.alloc, &only(component), &page.url, &page.url_address)
}

fn referrer(names: &Names) -> Result<Data, OutOfMemory>
    ensures { IfOk result (λ made. tree_of made ≡ address.known_part (only part.Url)
        names.now.page.now.referrer names.now.page.now.referrer_address) }
{
    let page = names.page;
    let wanted = only(Component::Url);
    known_part(names.alloc, &wanted, &page.referrer, &page.referrer_address)
}
