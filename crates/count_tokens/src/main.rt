//! Counts the tokens of the script in the file that the first word names: what examples/bench
//! measures of `tokens`.
#![tactic(auto)]

use anyhow::{Context, Result};
use sjs_lexer::tokens;
use std::{env, fs};

fn main(rt: HostRuntime) -> Result<()> {
    let alloc = rt.alloc();
    let name = env::args(&rt)?
        .nth(1)
        .context("usage: count_tokens SCRIPT")?;
    let script = fs::read_to_string(&rt, name.as_str())?;
    let count = tokens(alloc, script.as_str())?.len();
    println!(rt; "{count}")?;
    Ok(())
}
