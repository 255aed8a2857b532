ghost use Rattle.std.specs.Prelude.{◌≡◌, ℕ, List, true};
ghost use Rattle.sjs_syntax.specs.Words.{is_word, is_sign};
ghost use Rattle.sjs_kinds.specs.TextKinds.{IsWordKind, IsSignKind};

/// A law, with nothing to call: the kind of a reserved word is written as the word, and the kinds
/// of words and signs count as left out where these do.
pub fn words_and_signs_have_kinds()
    ensures words { (text : List ℕ) → is_word text ≡ true → IsWordKind text }
    ensures signs { (text : List ℕ) → is_sign text ≡ true → IsSignKind text }
{}
