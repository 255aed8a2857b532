ghost use Rattle.std.specs.Prelude.{◌≡◌, IfOk, IfSome, IsSome};
ghost use Rattle.gtm_base.specs.Engines.{pattern_finds, pattern_of};

use gtm_base::OutOfMemory;
use regex::Regex;
use std::alloc::Global;

/// Whether the pattern has a match anywhere in the text; `None` where `regex` refuses it: a text
/// that is no pattern, or one that would take more than 10 MiB.
pub fn found(alloc: Global, pattern: &str, text: &str) -> Result<Option<bool>, OutOfMemory>
    ensures found { IfOk result (λ answer. IfSome answer
        (λ found. found ≡ pattern_finds pattern.now text.now)) }
    ensures pattern { IfOk result (λ answer. IsSome answer → IsSome (pattern_of pattern.now)) }
{
    match Regex::new(alloc, pattern) {
        Ok(regex) => {
            let mut matcher = regex.matcher(alloc)?;
            Ok(Some(matcher.is_match(text)))
        },
        Err(regex::Error::OutOfMemory) => Err(OutOfMemory),
        Err(_) => Ok(None),
    }
}
