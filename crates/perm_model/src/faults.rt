/// How an entry into a script ends badly, other than by a denial.
#[derive(Clone, Copy, Debug, PartialEq, Eq)]
pub enum FaultKind {
    /// The entry has used up its ticks.
    Budget,
    /// No cell is left for what is made, or the bytes of the texts that were made are too many.
    HeapFull,
    /// Too many calls of script functions are open.
    CallDepth,
    /// A value that is copied between the heap and data nests too deep.
    CopyDepth,
    /// An operation on numbers has another value, or its answer is no whole number in range.
    Number,
    /// What is called is no function.
    NotCallable,
    /// A member is used where there can be none, or its key is neither a text nor a number.
    NoMember,
    /// A text is joined with an object, an array or a function.
    NoText,
    /// A name is used before its declaration.
    UnsetName,
    /// The script of a variable asks for an effect other than a line of the log.
    EffectInVariable,
    /// The arguments of a call are not those that it takes.
    BadArgument,
}
