ghost use Rattle.std.specs.Prelude.{◌≡◌, min};
ghost use Rattle.std.specs.Str.{chars, all_ascii_digits};
ghost use Rattle.gtm_data.specs.WholeText.{read_on};
ghost use Rattle.export_checks.specs.UnknownTriggers.{is_reserved, is_unknown};

use export_names::Numbers;
use gtm_base::Text;

// The first number of Tag Manager's own triggers.
const FIRST_RESERVED: u64 = 2_147_479_000;

// Whether a number stands for no trigger. The built-in triggers that hold have reserved numbers.
#[tactic(auto, using(crate::proofs::Wholes::unknown_alike))]
pub(crate) fn is_unknown(ids: &Numbers, id: &Text) -> bool
    ensures { result ≡ is_unknown ids.now id.now }
{
    ids.number(id).is_none() && !is_reserved(id.as_str())
}

// Whether a number is one of Tag Manager's own.
#[tactic(auto, using(crate::proofs::Wholes::reserved_alike))]
fn is_reserved(text: &str) -> bool
    ensures { result ≡ is_reserved (chars text.now) }
{
    is_decimal(text) && capped_number(text) >= FIRST_RESERVED
}

// Whether each character is an ASCII digit.
fn is_decimal(text: &str) -> bool
    ensures { result ≡ all_ascii_digits (chars text.now) }
{
    text.chars().all(|c| c.is_ascii_digit())
}

// The number that digits write, however many, or the first reserved one where it is higher. The
// digit 0 is the character 48.
fn capped_number(text: &str) -> u64
    ensures { result ≡ min (read_on 0 (chars text.now)) FIRST_RESERVED }
{
    let mut number = 0;
    for c in text.chars() {
        let digit = (c as u64).saturating_sub(48);
        number = (10 * number + digit).min(FIRST_RESERVED);
    }
    number
}
