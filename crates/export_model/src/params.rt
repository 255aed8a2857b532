use gtm_base::{ListOf, Text};

/// What a name in a text stands for.
#[derive(Clone, Copy, Debug, PartialEq, Eq)]
pub enum NameRef {
    /// The variable at this place.
    Variable(u32),
    /// The built-in variable at this place.
    BuiltIn(u32),
    /// The name of the event, written `_event`.
    EventName,
    /// Nothing has the name.
    Nothing,
}

/// A piece of a text.
#[derive(Debug, Drop)]
pub enum Piece {
    /// Characters that stand for themselves.
    Literal(Text),
    /// A name between `{{` and `}}`.
    Name(NameRef),
}

/// The pieces of a text, in order.
pub type Pieces = ListOf<Piece>;

/// A parameter: its key, empty where it has none, and its value.
#[cycle(param)]
#[derive(Debug, Drop)]
pub struct Param {
    pub key: Text,
    pub value: ParamValue,
}

/// The value of a parameter.
#[cycle(param)]
#[derive(Debug, Drop)]
pub enum ParamValue {
    /// A text in which names may stand.
    Template(Pieces),
    /// A whole number.
    Integer(i64),
    Bool(bool),
    List(Params),
    Map(Params),
    /// The text of a reference to a trigger or a tag.
    Reference(Text),
}

/// Parameters, in order. Several may have the same key.
pub type Params = ListOf<Param>;
