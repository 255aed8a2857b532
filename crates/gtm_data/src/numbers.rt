ghost use Rattle.std.specs.Prelude.{◌≡◌, ◌<◌, ◌==◌, length, slice_index, Some, true, false, IsTrue};
ghost use Rattle.std.specs.Prelude.{IfSome, option_and_then};
ghost use Rattle.std.specs.Str.{chars};
ghost use Rattle.serde_json.specs.Read.{number_of, number_from};
ghost use Rattle.serde_json.specs.View.{number_view};
ghost use Rattle.gtm_data.specs.Plain.{in_range, whole_of};
ghost use Rattle.gtm_data.specs.WholeText.{whole_text};

use fast_float::Numeral;
use serde_json::Number;

const LIMIT: i64 = 9_007_199_254_740_991;

fn in_range(number: i64) -> Option<i64>
    ensures { result ≡ in_range number }
{
    if -LIMIT <= number && number <= LIMIT {
        Some(number)
    } else {
        None
    }
}

/// The number of a JSON tree, where it is written whole and lies from -9007199254740991 to
/// 9007199254740991; else `None`.
pub fn whole_of(number: &Number) -> Option<i64>
    ensures { result ≡ whole_of (number_view number.now) }
{
    match number.as_i64() {
        Some(value) => in_range(value),
        None => None,
    }
}

/// The whole number that a text is: an optional `-` and one or more ASCII digits, with any number
/// of zeros first. `None` where it has another form, or lies outside of -9007199254740991 to
/// 9007199254740991. Takes no memory.
pub fn whole_text(text: &str) -> Option<i64>
    ensures { result ≡ whole_text (chars text.now) }
{
    // `parse` would take a plus.
    if text.starts_with('+') {
        return None;
    }
    match text.parse::<i64>() {
        Ok(number) => in_range(number),
        Err(_) => None,
    }
}

/// The number that the text of a JSON number is, where it is written whole and in range. `None`
/// says nothing.
#[tactic(auto, unfolding(serde_json::specs::Read::number_of))]
pub(crate) fn whole_numeral(text: &str) -> Option<i64>
    ensures { IfSome result (λ z. option_and_then whole_of (number_of text.now) ≡ Some z) }
{
    let bytes = text.as_bytes();
    if has_minus(bytes) {
        negative(&Numeral::scan(&bytes[1..]))
    } else {
        positive(&Numeral::scan(bytes))
    }
}

fn has_minus(bytes: &[u8]) -> bool
    ensures value { result ≡ (slice_index bytes.now 0 == 45) }
    ensures some { IsTrue result → 0 < length bytes.now }
{
    !bytes.is_empty() && bytes[0] == b'-'
}

fn positive(numeral: &Numeral<'_>) -> Option<i64>
    ensures { IfSome result
        (λ z. option_and_then whole_of (number_from false numeral.now) ≡ Some z) }
{
    match numeral.to_u64() {
        Some(size) if size <= LIMIT as u64 => Some(size as i64),
        _ => None,
    }
}

// A `-0` is no whole number.
fn negative(numeral: &Numeral<'_>) -> Option<i64>
    ensures { IfSome result
        (λ z. option_and_then whole_of (number_from true numeral.now) ≡ Some z) }
{
    match numeral.to_i64(true) {
        Some(number) if number < 0 && number >= -LIMIT => Some(number),
        _ => None,
    }
}
