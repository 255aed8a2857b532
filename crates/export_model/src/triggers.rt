use crate::Conditions;
use gtm_base::{ListOf, Text};

/// When a trigger is looked at.
#[derive(Debug, Drop)]
pub enum TriggerKind {
    /// At events of this name.
    Event(Text),
    /// At every event.
    Custom,
    /// Once all its members have held.
    Group,
    /// Never: a type, as it was written, that is not built.
    Never(Text),
}

/// What the number of a trigger stands for.
#[derive(Clone, Copy, Debug, PartialEq, Eq)]
pub enum TriggerRef {
    /// The container's trigger at this place.
    Own(u32),
    /// The built-in trigger of every page.
    AllPages,
    /// The built-in trigger of initialization.
    Init,
    /// The built-in trigger of consent initialization.
    ConsentInit,
    /// Another built-in trigger, which never holds.
    Never,
}

/// References to triggers, in order.
pub type TriggerRefs = ListOf<TriggerRef>;

/// A trigger.
#[derive(Debug, Drop)]
pub struct Trigger {
    pub id: Text,
    pub name: Text,
    pub kind: TriggerKind,
    pub conditions: Conditions,
    /// The members of a group.
    pub members: TriggerRefs,
}

/// The triggers of a container.
pub type Triggers = ListOf<Trigger>;
