ghost use Rattle.std.specs.Prelude.{◌≡◌, ◌++◌, ◌⊎◌, ℕ, [], ◌∷◌, Bool};
ghost use Rattle.sjs_syntax.specs.Tree.{StmtTrees};
ghost use Rattle.sjs_grammar.specs.Grammar.{Reads};
ghost use Rattle.sjs_grammar.specs.Kinds as kind;
ghost use Rattle.sjs_grammar.specs.Tokens.{tok, Toks};
ghost use Rattle.sjs_table.specs.Notes.{Out};
ghost use Rattle.sjs_table.specs.Runs.{Stack};
ghost use Rattle.sjs_refusal.specs.Refusal.{Begins, IsRefused, Dead, Live, after};

/// A law, with nothing to call: the machine gets behind exactly the tokens with which some script
/// begins.
pub fn the_machine_goes_as_far_as_scripts_do()
    ensures goes { (tokens : Toks) (stack : Stack) (notes : Out) →
        after tokens ≡ Live stack notes → Begins tokens }
    ensures stops { (tokens : Toks) → after tokens ≡ Dead → Begins tokens → ⊥ }
{}

/// A law, with nothing to call: tokens up to the end of the text are read as a script or refused at
/// the first token that no script has there, in one way, and not both.
pub fn tokens_are_read_or_refused()
    ensures judged { (tokens : Toks) (place : ℕ) (broken : Bool) →
        ((script : StmtTrees) × Reads (tokens ++ tok place broken kind.End ∷ []) script) ⊎
        ((at : ℕ) × (left_out : Bool) ×
        IsRefused (tokens ++ tok place broken kind.End ∷ []) at left_out) }
    ensures one { (tokens : Toks) (at other : ℕ) (left_out also : Bool) →
        IsRefused tokens at left_out → IsRefused tokens other also →
        (at ≡ other) × (left_out ≡ also) }
    ensures apart { (tokens : Toks) (script : StmtTrees) (at : ℕ) (left_out : Bool) →
        Reads tokens script → IsRefused tokens at left_out → ⊥ }
{}
