//! The tree of a script, and the reserved words and signs of its text.
//!
//! All fields of the tree are public. A contract sees a script as its `program_of`, a tree of plain
//! numbers, texts and lists, with a clause for each form. `IsFormed` says what holds of a script
//! that was read: its numbers are in range, a constant has a value, and `break` and `continue`
//! stand in a loop of the same function. `WORDS` and `SIGNS` are the two tables; `is_word` and
//! `is_left_out` look a text up, and `sign_at` gives exactly the longest sign at the front of a
//! text.
#![tactic(auto)]

mod expressions;
mod signs;
mod statements;
mod words;

pub use expressions::{
    ArrowBody, Expr, ExprForm, Exprs, ObjectMember, ObjectMembers, Place, PlaceForm,
};
pub use perm_model::FaultKind;
pub use signs::{AssignSign, OneSign, PairSign};
pub use statements::{
    Binding, Declarator, Declarators, ForInit, Named, Nameds, Program, Stmt, StmtForm, Stmts,
};
pub use words::{SIGNS, Standing, WORDS, is_left_out, is_word, sign_at};
