/// The sign of an assignment.
#[derive(Clone, Copy, Debug, PartialEq, Eq)]
pub enum AssignSign {
    /// `=`
    Set,
    /// `+=`
    Add,
    /// `-=`
    Sub,
    /// `*=`
    Mul,
    /// `/=`
    Div,
    /// `%=`
    Rem,
}

/// The sign between two operands.
#[derive(Clone, Copy, Debug, PartialEq, Eq)]
pub enum PairSign {
    /// `||`
    Or,
    /// `&&`
    And,
    /// `==`
    Eq,
    /// `!=`
    Ne,
    /// `===`
    Same,
    /// `!==`
    NotSame,
    /// `<`
    Lt,
    /// `>`
    Gt,
    /// `<=`
    Le,
    /// `>=`
    Ge,
    /// `+`
    Add,
    /// `-`
    Sub,
    /// `*`
    Mul,
    /// `/`
    Div,
    /// `%`
    Rem,
}

/// The sign or word before one operand.
#[derive(Clone, Copy, Debug, PartialEq, Eq)]
pub enum OneSign {
    /// `!`
    Not,
    /// `-`
    Minus,
    /// `+`
    Plus,
    /// `typeof`
    TypeOf,
}
