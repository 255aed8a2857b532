ghost use Rattle.std.specs.Prelude.{◌≡◌, IfOk, option_and_then};
ghost use Rattle.gtm_data.specs.WholeText.{whole_text};
ghost use Rattle.export_names.specs.Values.{value_of};
ghost use Rattle.export_container.specs.Tags.{priority_of, option_of, sequence_of, setup_of};
ghost use Rattle.export_container.specs.Tags.{teardown_of, is_needed, named_types, consent_of};

use export_entries::{ConsentStatus, WrittenConsent, WrittenOption, WrittenSetup, WrittenTeardown};
use export_fields::WrittenParam;
use export_model::{FiringOption, Sequence};
use export_names::{Numbers, values_of};
use gtm_base::{OutOfMemory, Text, Texts};
use gtm_data::whole_text;
use std::alloc::Global;

/// The priority of a tag: 0 where there is none, or it is no whole number.
pub fn priority_of(priority: &Option<WrittenParam>) -> i64
    ensures { result ≡ priority_of priority.now }
{
    match whole_in(priority) {
        Some(number) => number,
        None => 0,
    }
}

// The whole number that the text of a parameter is, if it is one.
fn whole_in(param: &Option<WrittenParam>) -> Option<i64>
    ensures { result ≡ option_and_then (λ p. whole_text (value_of p)) param.now }
{
    match param {
        Some(param) => whole_text(param.value.as_str()),
        None => None,
    }
}

/// How often a tag may start.
pub fn option_of(written: WrittenOption) -> FiringOption
    ensures { result ≡ option_of written }
{
    match written {
        WrittenOption::OncePerEvent => FiringOption::OncePerEvent,
        WrittenOption::OncePerLoad => FiringOption::OncePerLoad,
        WrittenOption::Unlimited => FiringOption::Unlimited,
    }
}

/// The setup tag that a written one stands for, by the names of the tags.
pub fn setup_of(tags: &Numbers, written: &Option<WrittenSetup>) -> Option<Sequence>
    ensures { result ≡ setup_of tags.now written.now }
{
    match written {
        Some(setup) => sequence_of(tags, &setup.tag, setup.stop),
        None => None,
    }
}

/// The teardown tag that a written one stands for, by the names of the tags.
pub fn teardown_of(tags: &Numbers, written: &Option<WrittenTeardown>) -> Option<Sequence>
    ensures { result ≡ teardown_of tags.now written.now }
{
    match written {
        Some(teardown) => sequence_of(tags, &teardown.tag, teardown.stop),
        None => None,
    }
}

// The first tag with a name, as a setup or teardown tag.
fn sequence_of(tags: &Numbers, name: &Text, stop: bool) -> Option<Sequence>
    ensures { result ≡ sequence_of tags.now name.now stop }
{
    match tags.number(name) {
        Some(tag) => Some(Sequence { tag, stop }),
        None => None,
    }
}

/// The types of consent that a tag needs. Fails where memory is wanting.
pub fn consent_of(alloc: Global, written: &Option<WrittenConsent>) -> Result<Texts, OutOfMemory>
    ensures { IfOk result (λ made. made ≡ consent_of written.now) }
{
    match written {
        Some(consent) if is_needed(consent.status) => named_types(alloc, consent),
        _ => Ok(Texts::new(alloc)),
    }
}

// The types of consent that are named.
fn named_types(alloc: Global, consent: &WrittenConsent) -> Result<Texts, OutOfMemory>
    ensures { IfOk result (λ made. made ≡ named_types consent.now) }
{
    match &consent.types {
        Some(types) => values_of(alloc, &types.items),
        None => Ok(Texts::new(alloc)),
    }
}

// Whether consent of a tag's own is needed.
fn is_needed(status: ConsentStatus) -> bool
    ensures { result ≡ is_needed status }
{
    matches!(status, ConsentStatus::Needed)
}
