ghost use Rattle.std.specs.Prelude.{◌≡◌, ◌≤◌, IfSome};
ghost use Rattle.std.specs.Str.{chars};
ghost use Rattle.sjs_lexer.specs.Digits.{push_digit};

// The number that one digit more gives, or `None` where it is no digit of that base, or where the
// number is over the limit.
#[tactic(auto, unfolding(crate::specs::Digits::push_digit))]
pub(crate) fn push_digit(base: u32, limit: u64, number: u64, digit: char) -> Option<u64>
    requires base_low { 2 ≤ base }
    requires base_high { base ≤ 16 }
    requires limit { limit ≤ 9007199254740991 }
    requires number { number ≤ limit }
    ensures value { result ≡ push_digit base limit number digit }
    ensures within { IfSome result (λ more. more ≤ limit) }
{
    let value = digit.to_digit(base)?;
    let more = number * u64::from(base) + u64::from(value);
    if more <= limit { Some(more) } else { None }
}
