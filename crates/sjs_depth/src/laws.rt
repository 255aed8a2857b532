ghost use Rattle.std.specs.Prelude.{◌≡◌, ℕ, [], ◌∷◌};
ghost use Rattle.sjs_syntax.specs.Tree.{StmtTrees};
ghost use Rattle.sjs_table.specs.Notes as note;
ghost use Rattle.sjs_table.specs.Runs.{opened};
ghost use Rattle.sjs_depth.specs.Depth as depth;
ghost use Rattle.sjs_depth.specs.Depth.{least, too_deep_at};
ghost use Rattle.sjs_depth.specs.Pass.{pass};

/// A law, with nothing to call: the pass over the notes of a script finds the places of its nodes
/// that stand so deep, and the least at depth 101 is the first one with 100 nodes above it.
pub fn one_pass_finds_what_is_too_deep()
    ensures places { (script : StmtTrees) (deep : ℕ) →
        pass (note.stmts script opened) (deep ∷ []) ≡ depth.stmts script deep }
    ensures first { (script : StmtTrees) →
        least (pass (note.stmts script opened) (101 ∷ [])) ≡ too_deep_at script }
{}
