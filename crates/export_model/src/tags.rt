use crate::{Params, TriggerRefs};
use gtm_base::{ListOf, Text, Texts};

/// What a tag runs.
#[derive(Debug, Drop)]
pub enum TagKind {
    /// The custom template at this place.
    Template(u32),
    /// A type of Google's or of a vendor's, as it was written.
    Opaque(Text),
}

/// How often a tag may start.
#[derive(Clone, Copy, Debug, PartialEq, Eq)]
pub enum FiringOption {
    OncePerEvent,
    OncePerLoad,
    Unlimited,
}

/// A setup or teardown tag.
#[derive(Clone, Copy, Debug, PartialEq, Eq)]
pub struct Sequence {
    /// The tag at this place.
    pub tag: u32,
    /// Whether its failure, or for a teardown tag that of the main tag, keeps the other one from
    /// starting.
    pub stop: bool,
}

/// A tag.
#[derive(Debug, Drop)]
pub struct Tag {
    pub id: Text,
    pub name: Text,
    pub kind: TagKind,
    pub params: Params,
    pub firing: TriggerRefs,
    pub blocking: TriggerRefs,
    /// The greatest goes first. 0 where none is given.
    pub priority: i64,
    pub option: FiringOption,
    pub setup: Option<Sequence>,
    pub teardown: Option<Sequence>,
    pub paused: bool,
    /// The first millisecond of its schedule, and the first one behind it.
    pub from_ms: Option<i64>,
    pub until_ms: Option<i64>,
    /// The types of consent that it needs.
    pub consent: Texts,
}

/// The tags of a container.
pub type Tags = ListOf<Tag>;
