ghost use Rattle.std.specs.Prelude.{◌≡◌, Some};
ghost use Rattle.sjs_syntax.specs.Tree.{StmtTrees};
ghost use Rattle.sjs_grammar.specs.Grammar.{Reads};
ghost use Rattle.sjs_grammar.specs.Tokens.{Toks};
ghost use Rattle.sjs_table.specs.Notes.{Out, stmts};
ghost use Rattle.sjs_table.specs.Runs.{run, start, opened};

/// A law, with nothing to call: tokens that the machine takes are read as a script, and what it
/// puts out are the notes of that script.
pub fn what_is_taken_is_read()
    ensures { (tokens : Toks) (notes : Out) → run tokens start opened ≡ Some notes →
        (script : StmtTrees) × Reads tokens script × (notes ≡ stmts script opened) }
{}
