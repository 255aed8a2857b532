ghost use Rattle.std.specs.Prelude.{◌≡◌, ◌<◌, ◌^◌, ℕ, IfSome, IfNone, decimal};
ghost use Rattle.std.specs.Str.{chars};

/// The index below `count` that is written so in decimal digits, with no sign and no zero before
/// them. Takes no memory.
pub fn index_below(count: usize, name: &str) -> Option<usize>
    ensures below { IfSome result (λ at. at < count) }
    ensures written { IfSome result (λ at. decimal at ≡ chars name.now) }
    ensures none { IfNone result ((at : ℕ) → at < count → decimal at ≡ chars name.now → ⊥) }
{
    let at = number(name)?;
    if at < count { Some(at) } else { None }
}

fn number(name: &str) -> Option<usize>
    ensures written { IfSome result (λ at. decimal at ≡ chars name.now) }
    ensures none { IfNone result ((at : ℕ) → at < 2 ^ 64 → decimal at ≡ chars name.now → ⊥) }
{
    if name == "0" {
        return Some(0);
    }
    match name.as_bytes() {
        // `parse` alone would take a plus, and zeros before the digits.
        [b'1'..=b'9', ..] => name.parse().ok(),
        _ => None,
    }
}
