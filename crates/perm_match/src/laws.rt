ghost use Rattle.std.specs.Prelude.{◌≡◌, ◌≢◌, ◌↔◌, ℕ, List, [], ◌∷◌, ◌++◌, None, Some, true};
ghost use Rattle.std.specs.List.{Contains, list_all};
ghost use Rattle.perm_model.specs.Addresses.{authority_fits};
ghost use Rattle.perm_model.specs.Allowed.{is_allowed, first_denied};
ghost use Rattle.perm_model.specs.Texts.{fits, filled};
ghost use Rattle.perm_model.specs.declared.grants.Grant.{Grant};
ghost use Rattle.perm_model.specs.declared.grants.Policy.{Policy};
ghost use Rattle.perm_model.specs.declared.needs.Need.{Need};
ghost use Rattle.perm_match.specs.Denied.{IsFirstDenied};

/// A law, with nothing to call: a text fits a pattern exactly where it is the pattern with some
/// run of characters, or none, in place of each `*`.
pub fn a_star_is_any_run()
    ensures { (pattern text : List ℕ) → (fits pattern text ≡ true) ↔
        ((runs : List (List ℕ)) × (filled pattern runs ≡ text)) }
{}

/// A law, with nothing to call: the authorities of `*.host` are those that end in `.host` with
/// something before it.
pub fn a_star_before_a_host_is_some_text()
    ensures { (host authority : List ℕ) →
        (authority_fits (42 ∷ 46 ∷ host) authority ≡ true) ↔
        ((front : List ℕ) × (front ≢ []) × (authority ≡ front ++ (46 ∷ host))) }
{}

/// A law, with nothing to call: a policy that has no grant beside those of another allows no more
/// than that one.
pub fn fewer_grants_allow_no_more()
    ensures { (fewer more : Policy) (wanted : Need) →
        ((g : Grant) → Contains fewer.grants g → Contains more.grants g) →
        is_allowed fewer wanted ≡ true → is_allowed more wanted ≡ true }
{}

/// A law, with nothing to call: no need is denied exactly where all are allowed, and else the first
/// that is not allowed.
pub fn the_first_denied_is_the_least()
    ensures none { (policy : Policy) (needs : List Need) →
        (first_denied policy needs ≡ None) ↔ (list_all (is_allowed policy) needs ≡ true) }
    ensures first { (policy : Policy) (needs : List Need) (at : ℕ) →
        first_denied policy needs ≡ Some at → IsFirstDenied policy needs at }
{}
