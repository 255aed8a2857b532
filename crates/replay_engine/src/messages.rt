ghost use Rattle.std.specs.Prelude.{◌≡◌, IfOk, IsTrue, option_map};
ghost use Rattle.gtm_base.specs.Ascii.{is_all_ascii};
ghost use Rattle.replay_engine.specs.Messages.{event_name, begins_page, event_message};
ghost use Rattle.replay_engine.specs.Messages.{consent_message, init_message};
ghost use Rattle.gtm_data.specs.Tree.{tree_of};

use gtm_base::{OutOfMemory, Text};
use gtm_data::{Data, Members};
use std::alloc::Global;

/// The text of the member `event`.
pub fn event_name(message: &Data) -> Option<&Text>
    ensures { option_map (λ name. name.now) result ≡ event_name (tree_of message.now) }
{
    match message.member("event") {
        Some(value) => value.as_text(),
        None => None,
    }
}

/// Whether it is a Map whose event is `gtm.js`.
pub fn begins_page(value: &Data) -> bool
    ensures { result ≡ begins_page (tree_of value.now) }
{
    match event_name(value) {
        Some(name) => name.is_word("gtm.js"),
        None => false,
    }
}

/// The first message that initialises a page.
#[tactic(auto, unfolding(crate::specs::Messages::consent_message))]
pub fn consent_message(alloc: Global) -> Result<Data, OutOfMemory>
    ensures { IfOk result (λ made. tree_of made ≡ consent_message) }
{
    event_message(alloc, "gtm.init_consent")
}

/// The second.
#[tactic(auto, unfolding(crate::specs::Messages::init_message))]
pub fn init_message(alloc: Global) -> Result<Data, OutOfMemory>
    ensures { IfOk result (λ made. tree_of made ≡ init_message) }
{
    event_message(alloc, "gtm.init")
}

// The message of an event with this name alone, a word of ASCII characters.
fn event_message(alloc: Global, name: &str) -> Result<Data, OutOfMemory>
    requires { IsTrue (is_all_ascii name.now) }
    ensures { IfOk result (λ made. tree_of made ≡ event_message name.now) }
{
    let mut members = Members::new(alloc);
    let key = text_of(alloc, "event")?;
    members.push(key, Data::Text(text_of(alloc, name)?))?;
    Ok(Data::Map(members))
}

fn text_of(alloc: Global, word: &str) -> Result<Text, OutOfMemory>
    requires { IsTrue (is_all_ascii word.now) }
    ensures { IfOk result (λ made. made ≡ word.now) }
{
    let mut text = Text::new(alloc);
    text.push_word(word)?;
    Ok(text)
}
