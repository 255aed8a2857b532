use gtm_base::{OutOfMemory, Text};
use sjs_lexer::tokens;
use sjs_syntax::{Expr, ExprForm, Program, Stmt, StmtForm, Stmts};
use std::alloc::Global;
use std::test::Fail;

// The greatest number of nodes of which each stands in the one before.
const DEPTH: usize = 100;

fn block_of(alloc: Global, inner: Stmt) -> Result<Stmt, OutOfMemory> {
    let mut body = Stmts::new(alloc);
    body.push(inner)?;
    Ok(Stmt {
        at: 0,
        form: StmtForm::Block(body),
    })
}

fn round_of(alloc: Global, inner: Expr) -> Result<Expr, OutOfMemory> {
    Ok(Expr {
        at: 0,
        form: ExprForm::Round(Box::new(alloc, inner)?),
    })
}

// As many blocks as may stand in one another.
fn blocks(alloc: Global) -> Result<Program, OutOfMemory> {
    let mut inner = Stmt {
        at: 0,
        form: StmtForm::Empty,
    };
    for _ in 1..DEPTH {
        inner = block_of(alloc, inner)?;
    }
    let mut body = Stmts::new(alloc);
    body.push(inner)?;
    Ok(Program { body })
}

// As many brackets as may stand in one another.
fn brackets(alloc: Global) -> Result<Expr, OutOfMemory> {
    let mut inner = Expr {
        at: 0,
        form: ExprForm::Name(Text::from_str(alloc, "a")?),
    };
    for _ in 1..DEPTH {
        inner = round_of(alloc, inner)?;
    }
    Ok(inner)
}

#[test]
fn deep_trees_are_dropped(rt: HostRuntime) -> Result<(), Fail> {
    let alloc = rt.alloc();
    let program = blocks(alloc)?;
    assert_eq!(rt; program.body.len(), 1);
    let expr = brackets(alloc)?;
    assert_eq!(rt; expr.at, 0);
    Ok(())
}

#[test]
fn many_tokens(rt: HostRuntime) -> Result<(), Fail> {
    let alloc = rt.alloc();
    let mut text = Text::new(alloc);
    for _ in 0..20_000 {
        text.push_str("if(a1)'b'\n")?;
    }
    let read = tokens(alloc, text.as_str())?;
    assert_eq!(rt; read.len(), 100_000);
    Ok(())
}
