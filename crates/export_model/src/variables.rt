use crate::{Param, Params};
use gtm_base::{ListOf, Text};

/// Where the value of a variable comes from.
#[derive(Debug, Drop)]
pub enum VariableKind {
    Layer,
    Constant,
    Cookie,
    Global,
    Url,
    Referrer,
    EventName,
    Lookup,
    RegexTable,
    /// The custom template at this place.
    Template(u32),
    /// A type, as it was written, that is not built.
    Unknown(Text),
}

/// How a variable's value is changed before it is used.
#[derive(Debug, Drop)]
pub struct Format {
    /// A text is lower-cased.
    pub lower: bool,
    /// A text is upper-cased.
    pub upper: bool,
    /// What stands for null, undefined, true and false.
    pub null: Option<Param>,
    pub undefined: Option<Param>,
    pub yes: Option<Param>,
    pub no: Option<Param>,
}

/// A variable.
#[derive(Debug, Drop)]
pub struct Variable {
    pub id: Text,
    pub name: Text,
    pub kind: VariableKind,
    pub params: Params,
    pub format: Format,
}

/// The variables of a container.
pub type Variables = ListOf<Variable>;

/// A built-in variable: its name, and the word of its type.
#[derive(Debug, Drop)]
pub struct BuiltIn {
    pub name: Text,
    pub word: Text,
}

/// The built-in variables of a container.
pub type BuiltIns = ListOf<BuiltIn>;
