ghost use Rattle.std.specs.Prelude.{◌≡◌, ◌↔◌, ◌⊎◌, ℕ, true, false};
ghost use Rattle.gtm_data.specs.Tree.{Tree};
ghost use Rattle.line_rules.specs.BadForms.{has_form, HasOtherMember, IsRegionalDefault};
ghost use Rattle.trace_forms.specs.Forms.{form_of};
ghost use Rattle.trace_forms.specs.Steps.{Step, step, bad};

/// A law, with nothing to call: a line's value breaks rule 5 exactly where its members are those of
/// no form, or where a page has a member that is not listed; rule 7 exactly where it sets the
/// default of consent for regions; rule 6 exactly where its members are those of a form, it breaks
/// neither of the two, and it asks for no step; and it breaks no other rule.
pub fn bad_forms_break_one_rule()
    ensures five { (t : Tree)
        → (form_of t ≡ bad 5) ↔ ((has_form t ≡ false) ⊎ HasOtherMember t) }
    ensures six { (t : Tree) → (form_of t ≡ bad 6)
        ↔ ((has_form t ≡ true) × (HasOtherMember t → ⊥) × (IsRegionalDefault t → ⊥)
        × ((s : Step) → form_of t ≡ step s → ⊥)) }
    ensures seven { (t : Tree) → (form_of t ≡ bad 7) ↔ IsRegionalDefault t }
    ensures only { (t : Tree) (rule : ℕ) → form_of t ≡ bad rule
        → (rule ≡ 5) ⊎ ((rule ≡ 6) ⊎ (rule ≡ 7)) }
{}
