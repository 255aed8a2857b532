//! The tokens of a script.
//!
//! `tokens` reads a text as white space and comments with the tokens between them, each the longest
//! that can be read there, by the lexical grammar of ECMAScript 5.1 in a profile of whole numbers.
//! It gives exactly the tokens that `AreTokens` of `specs/` defines, or refuses the text exactly at
//! the first place where it goes on and neither white space, nor a comment, nor a token can be
//! read. Otherwise only memory can be wanting. Laws say that a text has one list of tokens or one
//! place of refusal, that the tokens lie where their places say, and what number digits write.
#![tactic(auto)]

mod characters;
mod digits;
mod escapes;
mod gaps;
mod laws;
mod lexing;
mod names;
mod numbers;
mod reading;
mod steps;
mod texts;
mod token;

pub use laws::{
    a_text_is_made_tokens_in_one_way, digits_write_their_value, tokens_lie_in_the_text,
};
pub use lexing::tokens;
pub use token::{LexEnd, Token, TokenKind, Tokens};
