ghost use Rattle.std.specs.Prelude.{◌≡◌, ◌≤◌, ◌↔◌, ℕ, List, Some, None};
ghost use Rattle.export_reader.specs.Breaks.{Breaks};
ghost use Rattle.export_reader.specs.FirstBroken.{first_broken};

/// A law, with nothing to call: the first broken rule is the broken one of the least number, at its
/// path; and there is none exactly where no rule is broken.
pub fn the_first_broken_rule_is_the_least()
    ensures some { (bytes path : List ℕ) (rule : ℕ) → (first_broken bytes ≡ Some (rule, path))
        ↔ (Breaks bytes rule path
        × ((other : ℕ) (place : List ℕ) → Breaks bytes other place → rule ≤ other)) }
    ensures none { (bytes : List ℕ) → (first_broken bytes ≡ None)
        ↔ ((rule : ℕ) (path : List ℕ) → Breaks bytes rule path → ⊥) }
{}
