ghost use Rattle.std.specs.Prelude.{◌≡◌, ◌≤◌, IfSome};
ghost use Rattle.std.specs.Bool.{OnTrue};
ghost use Rattle.std.specs.Str.{chars};
ghost use Rattle.sjs_lexer.specs.Escapes.{is_high, is_low, joined, escaped, itself};
ghost use Rattle.sjs_lexer.specs.Reading.{seen, hex_from, braced_from, braced_at, scalar_at};
ghost use Rattle.sjs_lexer.specs.Reading.{low_at, pair_at, code_at, unicode_at, escape_at};

use crate::characters::is_line_end;
use crate::digits::push_digit;
use crate::steps::next;

// The greatest code of a character.
const MAX_CODE: u64 = 0x10_FFFF;

// The character that is written behind a backslash.
pub(crate) fn escape(left: &str) -> Option<(char, &str)>
    ensures { seen result ≡ escape_at (chars left.now) }
{
    let (first, rest) = next(left)?;
    if first == 'x' {
        let (code, rest) = hex(2, rest)?;
        return scalar(code, rest);
    }
    if first == 'u' {
        return unicode(rest);
    }
    let c = escaped(first)?;
    Some((c, rest))
}

// The character that a backslash and one other character write.
#[tactic(auto, unfolding(crate::specs::Escapes::escaped))]
fn escaped(c: char) -> Option<char>
    ensures { result ≡ escaped c }
{
    match c {
        'n' => Some('\n'),
        'r' => Some('\r'),
        't' => Some('\t'),
        'b' => Some('\u{8}'),
        'f' => Some('\u{c}'),
        'v' => Some('\u{b}'),
        '0' => Some('\0'),
        _ => itself(c),
    }
}

// The character itself, where a backslash may stand before it.
#[tactic(auto, unfolding(crate::specs::Escapes::itself))]
fn itself(c: char) -> Option<char>
    ensures { result ≡ itself c }
{
    if c.is_ascii_digit() || c == 'x' || c == 'u' || is_line_end(c) {
        None
    } else {
        Some(c)
    }
}

// The character behind `u`.
fn unicode(left: &str) -> Option<(char, &str)>
    ensures { seen result ≡ unicode_at (chars left.now) }
{
    let (first, rest) = next(left)?;
    if first == '{' {
        return braced(rest);
    }
    let (code, rest) = hex(4, left)?;
    if is_high(code) {
        pair(code, rest)
    } else {
        scalar(code, rest)
    }
}

// The character behind `u{`.
fn braced(left: &str) -> Option<(char, &str)>
    ensures { seen result ≡ braced_at (chars left.now) }
{
    let (first, rest) = next(left)?;
    let number = push_digit(16, MAX_CODE, 0, first)?;
    let (code, rest) = braced_from(number, rest)?;
    scalar(code, rest)
}

// The character that the first of two surrogates begins.
fn pair(high: u64, left: &str) -> Option<(char, &str)>
    requires low { 0xD800 ≤ high }
    requires high { high ≤ 0xDBFF }
    ensures { seen result ≡ pair_at high (chars left.now) }
{
    let (slash, rest) = next(left)?;
    if slash == '\\' { low(high, rest) } else { None }
}

// The same behind the backslash of the second.
fn low(high: u64, left: &str) -> Option<(char, &str)>
    requires low { 0xD800 ≤ high }
    requires high { high ≤ 0xDBFF }
    ensures { seen result ≡ low_at high (chars left.now) }
{
    let (u, rest) = next(left)?;
    if u != 'u' {
        return None;
    }
    let (low, rest) = hex(4, rest)?;
    if is_low(low) {
        scalar(joined(high, low), rest)
    } else {
        None
    }
}

// The code of the character that two surrogates make.
#[tactic(auto, unfolding(crate::specs::Escapes::joined))]
fn joined(high: u64, low: u64) -> u64
    requires high_start { 0xD800 ≤ high }
    requires high_end { high ≤ 0xDBFF }
    requires low_start { 0xDC00 ≤ low }
    requires low_end { low ≤ 0xDFFF }
    ensures value { result ≡ joined high low }
    ensures within { result ≤ MAX_CODE }
{
    0x10000 + (high - 0xD800) * 0x400 + (low - 0xDC00)
}

#[tactic(auto, unfolding(crate::specs::Escapes::is_high))]
fn is_high(code: u64) -> bool
    ensures value { result ≡ is_high code }
    ensures range { OnTrue result ((0xD800 ≤ code) × (code ≤ 0xDBFF)) }
{
    0xD800 <= code && code < 0xDC00
}

#[tactic(auto, unfolding(crate::specs::Escapes::is_low))]
fn is_low(code: u64) -> bool
    ensures value { result ≡ is_low code }
    ensures range { OnTrue result ((0xDC00 ≤ code) × (code ≤ 0xDFFF)) }
{
    0xDC00 <= code && code < 0xE000
}

// The character of a code, if it is one.
#[tactic(auto, unfolding(crate::specs::Escapes::is_scalar))]
fn scalar(code: u64, left: &str) -> Option<(char, &str)>
    requires { code ≤ 0x1FFFFF }
    ensures { seen result ≡ scalar_at code (chars left.now) }
{
    let c = char::from_u32(code as u32)?;
    Some((c, left))
}

// So many hexadecimal digits.
fn hex(digits: usize, text: &str) -> Option<(u64, &str)>
    ensures value { seen result ≡ hex_from digits 0 (chars text.now) }
    ensures within { IfSome result (λ r. r.0 ≤ MAX_CODE) }
{
    let mut left = text;
    let mut number = 0;
    let mut count = digits;
    while count > 0 {
        let (c, rest) = next(left)?;
        number = push_digit(16, MAX_CODE, number, c)?;
        left = rest;
        count -= 1;
    }
    Some((number, left))
}

// The hexadecimal digits behind a number so far, and the closing brace.
fn braced_from(front: u64, text: &str) -> Option<(u64, &str)>
    requires { front ≤ MAX_CODE }
    ensures value { seen result ≡ braced_from front (chars text.now) }
    ensures within { IfSome result (λ r. r.0 ≤ MAX_CODE) }
{
    let mut left = text;
    let mut number = front;
    while let Some((c, rest)) = next(left) {
        if c == '}' {
            return Some((number, rest));
        }
        number = push_digit(16, MAX_CODE, number, c)?;
        left = rest;
    }
    None
}
