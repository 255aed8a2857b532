ghost use Rattle.sjs_syntax.specs.Formed.{IsFormed};
ghost use Rattle.sjs_syntax.specs.Tree.{StmtTrees};
ghost use Rattle.sjs_grammar.specs.Grammar.{Reads};
ghost use Rattle.sjs_grammar.specs.InRange.{AreInRange};
ghost use Rattle.sjs_grammar.specs.Tokens.{Toks};

/// A law, with nothing to call: of tokens whose numbers are in range, a script that is read is
/// formed.
pub fn what_is_read_is_formed()
    ensures { (tokens : Toks) (script : StmtTrees) →
        AreInRange tokens → Reads tokens script → IsFormed script }
{}
