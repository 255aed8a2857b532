use crate::Param;
use gtm_base::{ListOf, Text};

/// How the two sides of a condition are compared.
#[derive(Debug, Drop)]
pub enum Op {
    Equals,
    Contains,
    StartsWith,
    EndsWith,
    Greater,
    GreaterOrEquals,
    Less,
    LessOrEquals,
    MatchRegex,
    /// Any other type, as it was written. Such a condition never holds.
    Never(Text),
}

/// A condition of a trigger.
#[derive(Debug, Drop)]
pub struct Condition {
    pub op: Op,
    pub left: Param,
    pub right: Param,
    /// Whether it holds where the comparison fails.
    pub negate: bool,
    pub ignore_case: bool,
}

/// Conditions, all of which have to hold.
pub type Conditions = ListOf<Condition>;
