ghost use Rattle.std.specs.Prelude.{◌≡◌, [], ◌∷◌};
ghost use Rattle.sjs_syntax.specs.Tree.{StmtTrees};
ghost use Rattle.sjs_table.specs.Built.{built, VStmts};
ghost use Rattle.sjs_table.specs.Notes.{stmts};
ghost use Rattle.sjs_table.specs.Runs.{opened};

/// A law, with nothing to call: the notes of a script build that script, and nothing beside it.
pub fn notes_build_their_script()
    ensures { (script : StmtTrees) → built (stmts script opened) ≡ VStmts script ∷ [] }
{}
