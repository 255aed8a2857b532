use gtm_base::{OutOfMemory, Text};
use sjs_lexer::{LexEnd, Token, TokenKind, tokens};
use std::alloc::Global;

/// A text, and what it is read as.
pub type Row = (&'static str, &'static str);

/// The tokens of a text, or the place where it is refused. A token is told by its kind and its two
/// places, with `!` before it where a line ends before it.
pub fn told(alloc: Global, text: &str) -> Result<Text, OutOfMemory> {
    let mut out = Text::new(alloc);
    match tokens(alloc, text) {
        Ok(read) => {
            for token in read.as_slice() {
                push_token(&mut out, token)?;
            }
        },
        Err(LexEnd::Refused { place }) => {
            out.push_str("refused ")?;
            out.push_unsigned(place as u64)?;
        },
        Err(LexEnd::OutOfMemory) => return Err(OutOfMemory),
    }
    Ok(out)
}

fn push_token(out: &mut Text, token: &Token) -> Result<(), OutOfMemory> {
    if !out.as_str().is_empty() {
        out.push(' ')?;
    }
    if token.after_break {
        out.push('!')?;
    }
    push_kind(out, &token.kind)?;
    out.push_unsigned(token.from as u64)?;
    out.push('-')?;
    out.push_unsigned(token.to as u64)
}

fn push_kind(out: &mut Text, kind: &TokenKind) -> Result<(), OutOfMemory> {
    match kind {
        TokenKind::Name => out.push('N'),
        TokenKind::Reserved => out.push('R'),
        TokenKind::Sign => out.push('S'),
        TokenKind::Number(number) => {
            out.push('#')?;
            out.push_signed(*number)?;
            out.push(':')
        },
        TokenKind::Text(value) => {
            out.push('\'')?;
            out.push_str(value.as_str())?;
            out.push_str("':")
        },
    }
}
