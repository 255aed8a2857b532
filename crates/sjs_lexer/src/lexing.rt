ghost use Rattle.std.specs.Prelude.{◌≡◌, ◌-◌, ◌++◌, ℕ, List, IfOk, IfErr};
ghost use Rattle.std.specs.Str.{chars};
ghost use Rattle.sjs_lexer.specs.Found.{EndsBy};
ghost use Rattle.sjs_lexer.specs.Tokens.{AreTokens, bytes_in};

use crate::gaps::skip_gaps;
use crate::reading::token;
use crate::steps::is_end;
use crate::token::{LexEnd, Token, Tokens};
use std::alloc::Global;

/// The tokens of a text. Refused at the first place where the text goes on and neither white space,
/// nor a comment, nor a token can be read.
pub fn tokens(alloc: Global, text: &str) -> Result<Tokens, LexEnd>
    ensures ok { IfOk result (AreTokens (chars text.now)) }
    ensures refused { IfErr result (EndsBy (chars text.now)) }
{
    let mut tokens = Tokens::new(alloc);
    let mut left = text;
    'tokens: loop {
        let (after_break, here) = skip_gaps(left);
        if is_end(here) {
            return Ok(tokens);
        }
        let from = place(text, here);
        match token(alloc, here)? {
            None => return Err(LexEnd::Refused { place: from }),
            Some((kind, rest)) => {
                let to = place(text, rest);
                tokens.push(Token {
                    kind,
                    from,
                    to,
                    after_break,
                })?;
                left = rest;
            },
        }
    }
}

// How many bytes of a text stand before what is left of it.
fn place(text: &str, left: &str) -> usize
    requires { (front : List ℕ) × (chars text.now ≡ front ++ chars left.now) }
    ensures { result ≡ bytes_in (chars text.now) - bytes_in (chars left.now) }
{
    text.len() - left.len()
}
