ghost use Rattle.std.specs.Prelude.{◌≡◌, ◌≤◌, IfSome};
ghost use Rattle.std.specs.Str.{chars};
ghost use Rattle.sjs_lexer.specs.Reading.{seen, number_from, number_at, behind_zero_at};
ghost use Rattle.sjs_lexer.specs.Reading.{hex_number_at};

use crate::digits::push_digit;
use crate::steps::next;

// A number is at most 2^53 - 1.
const MAX_NUMBER: u64 = 9_007_199_254_740_991;

// The number that stands first.
pub(crate) fn number(left: &str) -> Option<(u64, &str)>
    ensures value { seen result ≡ number_at (chars left.now) }
    ensures within { IfSome result (λ r. r.0 ≤ MAX_NUMBER) }
{
    let (first, rest) = next(left)?;
    if first == '0' {
        return behind_zero(rest);
    }
    let number = push_digit(10, MAX_NUMBER, 0, first)?;
    number_from(10, number, rest)
}

// The number behind a first `0`.
fn behind_zero(left: &str) -> Option<(u64, &str)>
    ensures value { seen result ≡ behind_zero_at (chars left.now) }
    ensures within { IfSome result (λ r. r.0 ≤ MAX_NUMBER) }
{
    match next(left) {
        None => Some((0, left)),
        Some((c, rest)) => {
            if c == 'x' {
                return hex_number(rest);
            }
            if c.is_ascii_alphanumeric() || c == '.' {
                return None;
            }
            Some((0, left))
        },
    }
}

// The number behind `0x`.
fn hex_number(left: &str) -> Option<(u64, &str)>
    ensures value { seen result ≡ hex_number_at (chars left.now) }
    ensures within { IfSome result (λ r. r.0 ≤ MAX_NUMBER) }
{
    let (first, rest) = next(left)?;
    let number = push_digit(16, MAX_NUMBER, 0, first)?;
    number_from(16, number, rest)
}

// The digits behind a number so far, with no letter, digit or dot behind them.
fn number_from(base: u32, front: u64, text: &str) -> Option<(u64, &str)>
    requires base_low { 2 ≤ base }
    requires base_high { base ≤ 16 }
    requires number { front ≤ MAX_NUMBER }
    ensures value { seen result ≡ number_from base front (chars text.now) }
    ensures within { IfSome result (λ r. r.0 ≤ MAX_NUMBER) }
{
    let mut left = text;
    let mut number = front;
    while let Some((c, rest)) = next(left) {
        if !c.is_ascii_alphanumeric() {
            return if c == '.' { None } else { Some((number, left)) };
        }
        number = push_digit(base, MAX_NUMBER, number, c)?;
        left = rest;
    }
    Some((number, left))
}
