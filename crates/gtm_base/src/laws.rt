ghost use Rattle.std.specs.Prelude.{◌≡◌, ◌↔◌, ℕ, List, Some, None, false, IsTrue, slice_get};
ghost use Rattle.gtm_base.specs.Keys.{has_key, distinct_keys, value_of, place_of};

/// A law, with nothing to call: keys are distinct exactly where no two places have the same one.
/// Then the value of a key is exactly the one that it is paired with, and its place is exactly the
/// place of that pair. A key is there exactly where some pair has it, and a key that no pair has
/// leads nowhere.
pub fn keys_lead_to_their_pairs<T>()
    ensures distinct { (pairs : List (List ℕ × T)) → IsTrue (distinct_keys pairs)
        ↔ ((at other : ℕ) (key : List ℕ) (value another : T)
        → slice_get pairs at ≡ Some (key, value) → slice_get pairs other ≡ Some (key, another)
        → at ≡ other) }
    ensures value { (pairs : List (List ℕ × T)) (key : List ℕ) (value : T)
        → IsTrue (distinct_keys pairs) → (value_of key pairs ≡ Some value)
        ↔ ((at : ℕ) × (slice_get pairs at ≡ Some (key, value))) }
    ensures place { (pairs : List (List ℕ × T)) (key : List ℕ) (at : ℕ)
        → IsTrue (distinct_keys pairs) → (place_of key pairs ≡ Some at)
        ↔ ((value : T) × (slice_get pairs at ≡ Some (key, value))) }
    ensures has { (pairs : List (List ℕ × T)) (key : List ℕ) → IsTrue (has_key key pairs)
        ↔ ((at : ℕ) × (value : T) × (slice_get pairs at ≡ Some (key, value))) }
    ensures absent { (pairs : List (List ℕ × T)) (key : List ℕ) → (has_key key pairs ≡ false)
        ↔ (value_of key pairs ≡ None) }
{}
