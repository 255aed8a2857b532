ghost use Rattle.std.specs.Prelude.{◌≡◌, ◌↔◌, ℕ, List, Some, None};
ghost use Rattle.text_places.specs.Places.{place_of, first_repeat, IsFirstPlace, Lacks};
ghost use Rattle.text_places.specs.Places.{IsFirstRepeat, AllDifferent};

/// A law, with nothing to call: the first repeat is exactly the place whose text stands at an
/// earlier place while that of no place before it does, and there is none exactly where any two
/// places have different texts.
pub fn a_repeat_is_the_first()
    ensures some { (texts : List (List ℕ)) (at : ℕ) → (first_repeat texts ≡ Some at)
        ↔ IsFirstRepeat texts at }
    ensures none { (texts : List (List ℕ)) → (first_repeat texts ≡ None) ↔ AllDifferent texts }
{}

/// A law, with nothing to call: the place of a text is exactly the one that has it while no place
/// before it does, and there is none exactly where no place has it.
pub fn a_place_is_the_first()
    ensures some { (text : List ℕ) (texts : List (List ℕ)) (at : ℕ)
        → (place_of text texts ≡ Some at) ↔ IsFirstPlace texts text at }
    ensures none { (text : List ℕ) (texts : List (List ℕ)) → (place_of text texts ≡ None)
        ↔ Lacks texts text }
{}
