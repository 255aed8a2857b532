ghost use Rattle.std.specs.Prelude.{◌≡◌, Some};
ghost use Rattle.sjs_syntax.specs.Tree.{StmtTrees};
ghost use Rattle.sjs_grammar.specs.Grammar.{Reads};
ghost use Rattle.sjs_grammar.specs.Tokens.{Toks};
ghost use Rattle.sjs_table.specs.Notes.{stmts};
ghost use Rattle.sjs_table.specs.Runs.{run, start, opened};

/// A law, with nothing to call: tokens that are read as a script are taken by the machine, and it
/// puts out the notes of that script.
pub fn what_is_read_is_taken()
    ensures { (tokens : Toks) (script : StmtTrees) → Reads tokens script →
        run tokens start opened ≡ Some (stmts script opened) }
{}

/// A law, with nothing to call: tokens are read as one script at most.
pub fn tokens_are_one_script()
    ensures { (tokens : Toks) (some other : StmtTrees) →
        Reads tokens some → Reads tokens other → some ≡ other }
{}
