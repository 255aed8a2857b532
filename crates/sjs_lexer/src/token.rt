use gtm_base::{ListOf, OutOfMemory, Text};
use thiserror::Error;

/// What kind of token it is.
#[derive(Debug, Drop)]
pub enum TokenKind {
    Name,
    /// A reserved word.
    Reserved,
    /// From 0 to 9007199254740991.
    Number(i64),
    /// A text, with its escapes replaced.
    Text(Text),
    Sign,
}

/// A token.
#[derive(Debug, Drop)]
pub struct Token {
    pub kind: TokenKind,
    /// The byte at which it begins, from 0.
    pub from: usize,
    /// The byte behind its last.
    pub to: usize,
    /// Whether a line ends between the token before, or the start of the text, and this one.
    pub after_break: bool,
}

/// The tokens of a text, in order.
pub type Tokens = ListOf<Token>;

/// Why a text was not made tokens.
#[derive(Clone, Copy, Debug, PartialEq, Eq, Error)]
pub enum LexEnd {
    /// Memory was wanted and was not there.
    #[error("out of memory")]
    OutOfMemory,
    /// No token can be read at this byte, counted from 0.
    #[error("no token can be read at byte {place}")]
    Refused { place: usize },
}

impl From<OutOfMemory> for LexEnd {
    ghost use Rattle.std.specs.Prelude.{◌≡◌};
    ghost use Rattle.sjs_lexer.specs.declared.token.LexEnd.{LexEnd};
    ghost use Rattle.sjs_lexer.specs.declared.token.LexEnd.TheVariants as end;

    ghost from_gives = { λ _ e. e ≡ end.OutOfMemory };

    fn from(_: OutOfMemory) -> LexEnd {
        LexEnd::OutOfMemory
    }
}
