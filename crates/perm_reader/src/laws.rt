ghost use Rattle.std.specs.Prelude.{◌≡◌, ◌↔◌, ℕ, List, [], ◌∷◌, ◌++◌, Option, Some};
ghost use Rattle.perm_model.specs.declared.grants.AddressPattern.TheVariants.{Pattern};
ghost use Rattle.perm_reader.specs.Patterns.{address_pattern, IsAddressPattern, before_last_star};

/// A law, with nothing to call: a text is an address pattern exactly where it is `https://`, an
/// authority without a slash, and nothing or a path from a slash on, and both are kept as written.
pub fn a_pattern_is_kept_as_written()
    ensures { (text authority : List ℕ) (path : Option (List ℕ)) →
        (address_pattern text ≡ Some (Pattern authority path)) ↔
        IsAddressPattern text authority path }
{}

/// A law, with nothing to call: a key pattern is a prefix exactly where its last character is `*`,
/// and the prefix is what stands before.
pub fn a_prefix_ends_before_the_star()
    ensures { (text front : List ℕ) →
        (before_last_star text ≡ Some front) ↔ (text ≡ front ++ 42 ∷ []) }
{}
