ghost use Rattle.std.specs.Prelude.{◌≡◌, ◌≢◌, ◌≤◌, ◌↔◌, ℕ, List, [], Some};
ghost use Rattle.std.specs.Str.Parse.{AllDigits, digits_value};
ghost use Rattle.sjs_lexer.specs.Digits.{written};
ghost use Rattle.sjs_lexer.specs.Spans.{LieIn};
ghost use Rattle.sjs_lexer.specs.Tokens.{AreTokens, IsRefusedAt};
ghost use Rattle.sjs_lexer.specs.declared.token.Token.{Token};

/// A law, with nothing to call: a text has one list of tokens, or one place at which it is refused.
pub fn a_text_is_made_tokens_in_one_way()
    ensures one { (text : List ℕ) (some other : List Token) →
        AreTokens text some → AreTokens text other → some ≡ other }
    ensures apart { (text : List ℕ) (some : List Token) (place : ℕ) →
        AreTokens text some → IsRefusedAt text place → ⊥ }
    ensures refused { (text : List ℕ) (some other : ℕ) →
        IsRefusedAt text some → IsRefusedAt text other → some ≡ other }
{}

/// A law, with nothing to call: the tokens of a text lie in it in their order, each is the text
/// between its two places, and what stands between them completes the text.
pub fn tokens_lie_in_the_text()
    ensures { (text : List ℕ) (some : List Token) → AreTokens text some → LieIn 0 text some }
{}

/// A law, with nothing to call: one or more digits of a base write their value, where it is not
/// over the limit.
pub fn digits_write_their_value()
    ensures { (base limit number : ℕ) (digits : List ℕ) → 1 ≤ base →
        (written base limit digits ≡ Some number) ↔
        ((digits ≢ []) × AllDigits base digits × (digits_value base digits ≡ number) ×
        (number ≤ limit)) }
{}
