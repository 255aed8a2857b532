ghost use Rattle.std.specs.Prelude.{◌≡◌, ◌++◌, ◌∷◌, [], OnOk, is_some, map};
ghost use Rattle.gtm_data.specs.Tree.{tree_of};
ghost use Rattle.replay_engine.specs.Jobs.{first_begins, own_message};
ghost use Rattle.replay_engine.specs.Views.{message_of};

use crate::messages::begins_page;
use gtm_base::OutOfMemory;
use gtm_data::Data;
use std::alloc::Global;
use std::collections::VecDeque;

/// A value that waits to be taken as a message, and the group whose message it is, if it is one's.
#[derive(Drop)]
pub struct Message {
    pub value: Data,
    pub group: Option<u32>,
}

/// What waits for its turn.
#[derive(Drop)]
pub enum Job {
    /// A pushed value: a message, or a command array.
    Pushed(Message),
}

/// What waits, each list in the order in which it was made. The first three are empty as yet.
#[derive(Drop)]
pub struct Waiting {
    /// The job of a step that is taken at once.
    pub own: VecDeque<Job>,
    /// Jobs that go before the others.
    pub early: VecDeque<Job>,
    /// Jobs that go before messages.
    pub deferred: VecDeque<Job>,
    pub messages: VecDeque<Message>,
}

impl Waiting {
    /// Nothing waits. Takes no memory.
    pub fn new(alloc: Global) -> Waiting
        ensures own { result.own.items ≡ [] }
        ensures early { result.early.items ≡ [] }
        ensures deferred { result.deferred.items ≡ [] }
        ensures messages { result.messages.items ≡ [] }
    {
        Waiting {
            own: VecDeque::new(alloc),
            early: VecDeque::new(alloc),
            deferred: VecDeque::new(alloc),
            messages: VecDeque::new(alloc),
        }
    }
}

/// Lets a message that is no group's wait behind the others.
pub fn keep(messages: &mut VecDeque<Message>, value: Data) -> Result<(), OutOfMemory>
    ensures { OnOk result (map message_of messages.new.items
        ≡ map message_of messages.old.items ++ own_message (tree_of value) ∷ []) }
{
    messages.push_back(Message { value, group: None })?;
    Ok(())
}

/// Lets a message that is no group's wait before the others.
pub fn keep_first(messages: &mut VecDeque<Message>, value: Data) -> Result<(), OutOfMemory>
    ensures { OnOk result (map message_of messages.new.items
        ≡ own_message (tree_of value) ∷ map message_of messages.old.items) }
{
    messages.push_front(Message { value, group: None })?;
    Ok(())
}

/// Whether the first message begins a page.
pub fn first_begins(messages: &VecDeque<Message>) -> bool
    ensures { result ≡ first_begins (map message_of messages.now.items) }
{
    match messages.front() {
        Some(message) => begins_page(&message.value),
        None => false,
    }
}
