use crate::signs::{AssignSign, OneSign, PairSign};
use crate::statements::{Named, Nameds, Stmts};
use gtm_base::{ListOf, Text};

/// A member of an object that is written out.
#[derive(Debug, Drop)]
#[cycle(tree)]
pub struct ObjectMember {
    /// The byte at which its key begins, from 0.
    pub at: usize,
    /// The key; a number's is its decimal.
    pub key: Text,
    pub value: Expr,
}

/// The members of an object that is written out, in order.
pub type ObjectMembers = ListOf<ObjectMember>;

/// The body of an arrow function.
#[derive(Debug, Drop)]
#[cycle(tree)]
pub enum ArrowBody {
    Block(Stmts),
    Value(Box<Expr>),
}

/// What can be assigned to.
#[derive(Debug, Drop)]
#[cycle(tree)]
pub struct Place {
    /// The byte at which its first token begins, from 0.
    pub at: usize,
    pub form: PlaceForm,
}

/// What kind of place it is, and its parts.
#[derive(Debug, Drop)]
#[cycle(tree)]
pub enum PlaceForm {
    Name(Text),
    /// `a.b`
    Member(Box<Expr>, Text),
    /// `a[b]`
    Index(Box<Expr>, Box<Expr>),
}

/// An expression.
#[derive(Debug, Drop)]
#[cycle(tree)]
pub struct Expr {
    /// The byte at which its first token begins, from 0.
    pub at: usize,
    pub form: ExprForm,
}

/// Expressions, in order.
pub type Exprs = ListOf<Expr>;

/// What kind of expression it is, and its parts.
#[derive(Debug, Drop)]
#[cycle(tree)]
pub enum ExprForm {
    /// From -9007199254740991 to 9007199254740991.
    Number(i64),
    Text(Text),
    Bool(bool),
    Null,
    Undefined,
    Name(Text),
    /// An expression in round brackets.
    Round(Box<Expr>),
    List(Exprs),
    Object(ObjectMembers),
    /// The name if it has one, the parameters and the body.
    Function(Option<Named>, Nameds, Stmts),
    /// The parameters and the body.
    Arrow(Nameds, ArrowBody),
    Assign(AssignSign, Place, Box<Expr>),
    /// `a ? b : c`
    Choose(Box<Expr>, Box<Expr>, Box<Expr>),
    Pair(PairSign, Box<Expr>, Box<Expr>),
    One(OneSign, Box<Expr>),
    /// `++` where `up`, else `--`; before its place where `before`, else behind it.
    Step {
        up: bool,
        before: bool,
        place: Place,
    },
    /// `a.b`
    Member(Box<Expr>, Text),
    /// `a[b]`
    Index(Box<Expr>, Box<Expr>),
    /// What is called, and the arguments.
    Call(Box<Expr>, Exprs),
}
