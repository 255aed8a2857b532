ghost use Rattle.std.specs.Prelude.{◌≡◌, ◌++◌, ℕ, [], ◌∷◌, Bool};
ghost use Rattle.sjs_grammar.specs.Kinds as kind;
ghost use Rattle.sjs_grammar.specs.Tokens.{tok, Toks};
ghost use Rattle.sjs_verdicts.specs.Verdicts.{Verdict, Holds};

/// A law, with nothing to call: tokens up to the end of the text have a verdict, and no tokens have
/// two.
pub fn each_text_has_one_verdict()
    ensures some { (tokens : Toks) (place : ℕ) (broken : Bool) →
        (verdict : Verdict) × Holds (tokens ++ tok place broken kind.End ∷ []) verdict }
    ensures one { (tokens : Toks) (verdict other : Verdict) →
        Holds tokens verdict → Holds tokens other → verdict ≡ other }
{}
