use crate::expressions::Expr;
use gtm_base::{ListOf, Text};

/// A script.
#[derive(Debug, Drop)]
pub struct Program {
    pub body: Stmts,
}

/// A name, and where it stands.
#[derive(Debug, Drop)]
pub struct Named {
    /// The byte at which it begins, from 0.
    pub at: usize,
    pub name: Text,
}

/// Names, in order.
pub type Nameds = ListOf<Named>;

/// The word that begins a declaration.
#[derive(Clone, Copy, Debug, PartialEq, Eq)]
pub enum Binding {
    Var,
    Let,
    Const,
}

/// A declared name, with the value that it is given.
#[derive(Debug, Drop)]
#[cycle(tree)]
pub struct Declarator {
    pub name: Named,
    pub value: Option<Expr>,
}

/// The declared names of one declaration.
pub type Declarators = ListOf<Declarator>;

/// What stands before the first semicolon of a `for`.
#[derive(Debug, Drop)]
#[cycle(tree)]
pub enum ForInit {
    Declare(Binding, Declarators),
    Value(Expr),
}

/// A statement.
#[derive(Debug, Drop)]
#[cycle(tree)]
pub struct Stmt {
    /// The byte at which its first token begins, from 0.
    pub at: usize,
    pub form: StmtForm,
}

/// Statements, in order.
pub type Stmts = ListOf<Stmt>;

/// What kind of statement it is, and its parts.
#[derive(Debug, Drop)]
#[cycle(tree)]
pub enum StmtForm {
    Block(Stmts),
    /// A semicolon alone.
    Empty,
    Declare(Binding, Declarators),
    /// Its name, its parameters and its body.
    Function(Named, Nameds, Stmts),
    /// The test, what is done where it holds, and what is done else.
    If(Expr, Box<Stmt>, Option<Box<Stmt>>),
    While(Expr, Box<Stmt>),
    DoWhile(Box<Stmt>, Expr),
    /// What comes first, the test, what ends each turn, and the body.
    For(Option<ForInit>, Option<Expr>, Option<Expr>, Box<Stmt>),
    /// The declared name, what is walked, and the body.
    ForIn(Binding, Named, Expr, Box<Stmt>),
    Break,
    Continue,
    Return(Option<Expr>),
    /// An expression as a statement.
    Value(Expr),
}
