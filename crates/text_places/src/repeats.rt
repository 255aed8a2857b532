ghost use Rattle.std.specs.Prelude.{◌≡◌, IfOk, MatchOption, map};
ghost use Rattle.text_places.specs.Places.{first_repeat, IsFirstRepeat, AllDifferent};

use gtm_base::{OutOfMemory, Text};
use std::alloc::Global;
use std::collections::BTreeMap;

/// The place, counted from 0, of the first text that stood before, or `None` where no text stands
/// twice. Fails where memory is wanting.
pub fn first_repeat(alloc: Global, texts: &[&Text]) -> Result<Option<usize>, OutOfMemory>
    ensures first { let contents = map (λ t. t.now) texts.now in
        IfOk result (λ found. MatchOption found (AllDifferent contents) (IsFirstRepeat contents)) }
    ensures computed { IfOk result (λ found. found ≡ first_repeat (map (λ t. t.now) texts.now)) }
{
    let mut seen = BTreeMap::new(alloc);
    for (at, text) in texts.iter().enumerate() {
        let key = text.as_str();
        if seen.contains_key(key) {
            return Ok(Some(at));
        }
        seen.insert(key, at)?;
    }
    Ok(None)
}
