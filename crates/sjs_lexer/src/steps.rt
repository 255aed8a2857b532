ghost use Rattle.std.specs.Prelude.{◌≡◌, ◌≢◌, ◌∷◌, [], MatchOption, option_map};
ghost use Rattle.std.specs.Bool.{OnTrue, OnFalse};
ghost use Rattle.std.specs.Str.{chars};
ghost use Rattle.sjs_lexer.specs.Reading.{behind_char};

// The first character, and what stands behind it.
pub(crate) fn next(left: &str) -> Option<(char, &str)>
    ensures { MatchOption result (chars left.now ≡ []) (λ r. chars left.now ≡ r.0 ∷ chars r.1.now) }
{
    let mut chars = left.chars();
    let first = chars.next()?;
    Some((first, chars.as_str()))
}

// What stands behind a character, if it stands first.
pub(crate) fn behind_char(first: char, left: &str) -> Option<&str>
    ensures { option_map (λ rest. chars rest.now) result ≡ behind_char first (chars left.now) }
{
    let (c, rest) = next(left)?;
    if c == first { Some(rest) } else { None }
}

// Nothing is left.
pub(crate) fn is_end(left: &str) -> bool
    ensures end { OnTrue result (chars left.now ≡ []) }
    ensures more { OnFalse result (chars left.now ≢ []) }
{
    left.is_empty()
}
