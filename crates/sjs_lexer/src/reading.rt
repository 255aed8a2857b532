ghost use Rattle.std.specs.Prelude.{◌≡◌, ◌≢◌, ◌∷◌, [], false, true, IfOk};
ghost use Rattle.std.specs.Char.{is_ascii_digit};
ghost use Rattle.std.specs.Str.{chars};
ghost use Rattle.sjs_syntax.specs.Words.{IsLongestSign};
ghost use Rattle.sjs_lexer.specs.Characters.{is_name_start};
ghost use Rattle.sjs_lexer.specs.Found.{BeginsWith, Finds, HasToken, begins_sign};
ghost use Rattle.sjs_lexer.specs.Tokens.{begins_gap, begins_with, is_quote};

use crate::characters::{is_name_start, is_white};
use crate::names::{front, skip, skip_name};
use crate::numbers::number;
use crate::steps::next;
use crate::texts::text;
use crate::token::TokenKind;
use gtm_base::{OutOfMemory, Text};
use sjs_syntax::{is_word, sign_at};
use std::alloc::Global;

// The token that stands first, and what stands behind it.
pub(crate) fn token(alloc: Global, left: &str) -> Result<Option<(TokenKind, &str)>, OutOfMemory>
    requires { chars left.now ≢ [] }
    ensures { IfOk result (Finds (chars left.now)) }
{
    if begins_gap(left) {
        return Ok(None);
    }
    match next(left) {
        None => Ok(None),
        Some((first, rest)) => {
            if is_name_start(first) {
                return Ok(Some(name(left)));
            }
            if first.is_ascii_digit() {
                return Ok(number_token(left));
            }
            if is_quote(first) {
                return text_token(alloc, first, rest);
            }
            Ok(sign(left))
        },
    }
}

// White space or a comment begins here.
fn begins_gap(left: &str) -> bool
    ensures { result ≡ begins_gap (chars left.now) }
{
    match next(left) {
        None => false,
        Some((first, rest)) => {
            is_white(first) || first == '/' && (begins_with('/', rest) || begins_with('*', rest))
        },
    }
}

fn begins_with(first: char, left: &str) -> bool
    ensures { result ≡ begins_with first (chars left.now) }
{
    match next(left) {
        None => false,
        Some((c, _)) => c == first,
    }
}

fn is_quote(c: char) -> bool
    ensures { result ≡ is_quote c }
{
    c == '"' || c == '\''
}

// The name or reserved word that stands first.
fn name(left: &str) -> (TokenKind, &str)
    requires start { BeginsWith is_name_start (chars left.now) }
    requires clear { begins_gap (chars left.now) ≡ false }
    ensures { HasToken (chars left.now) result.0 (chars result.1.now) }
{
    let rest = skip_name(left);
    if is_word(front(left, rest)) {
        return (TokenKind::Reserved, rest);
    }
    (TokenKind::Name, rest)
}

// The number that stands first.
fn number_token(left: &str) -> Option<(TokenKind, &str)>
    requires start { BeginsWith is_ascii_digit (chars left.now) }
    requires clear { begins_gap (chars left.now) ≡ false }
    ensures { Finds (chars left.now) result }
{
    match number(left) {
        None => None,
        Some((number, rest)) => Some((TokenKind::Number(number as i64), rest)),
    }
}

// The text that stands first, from behind its quote on.
fn text_token<'a>(
    alloc: Global,
    quote: char,
    start: &'a str,
) -> Result<Option<(TokenKind, &'a str)>, OutOfMemory>
    requires start { is_quote quote ≡ true }
    requires clear { begins_gap (quote ∷ chars start.now) ≡ false }
    ensures { IfOk result (Finds (quote ∷ chars start.now)) }
{
    let mut value = Text::new(alloc);
    match text(quote, start, &mut value)? {
        None => Ok(None),
        Some(rest) => Ok(Some((TokenKind::Text(value), rest))),
    }
}

// The sign that stands first.
fn sign(left: &str) -> Option<(TokenKind, &str)>
    requires start { BeginsWith begins_sign (chars left.now) }
    requires clear { begins_gap (chars left.now) ≡ false }
    ensures { Finds (chars left.now) result }
{
    match sign_at(left) {
        None => None,
        Some(sign) => behind_sign(sign, left),
    }
}

fn behind_sign<'a>(sign: &str, left: &'a str) -> Option<(TokenKind, &'a str)>
    requires start { BeginsWith begins_sign (chars left.now) }
    requires clear { begins_gap (chars left.now) ≡ false }
    requires longest { IsLongestSign (chars left.now) sign.now }
    ensures { Finds (chars left.now) result }
{
    match skip(sign.len(), left) {
        None => None,
        Some(rest) => Some((TokenKind::Sign, rest)),
    }
}
