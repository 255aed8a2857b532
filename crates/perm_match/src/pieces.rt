ghost use Rattle.std.specs.Prelude.{◌≡◌, ◌∷◌, [], MatchOption};
ghost use Rattle.std.specs.Str.{chars};
ghost use Rattle.perm_model.specs.Texts.{is_nothing};
ghost use Rattle.perm_match.specs.Pieces.{joined};

/// A text that lies in three pieces and is not joined.
#[derive(Clone, Copy)]
pub(crate) struct Pieces<'a> {
    pub(crate) first: &'a str,
    pub(crate) second: &'a str,
    pub(crate) third: &'a str,
}

// The first character, and what stands behind it.
fn next_char(text: &str) -> Option<(char, &str)>
    ensures { MatchOption result (chars text.now ≡ []) (λ r. chars text.now ≡ r.0 ∷ chars r.1.now) }
{
    let mut chars = text.chars();
    let first = chars.next()?;
    Some((first, chars.as_str()))
}

// The same of a text in pieces.
pub(crate) fn next(text: Pieces) -> Option<(char, Pieces)>
    ensures { MatchOption result (joined text.entry ≡ [])
        (λ r. joined text.entry ≡ r.0 ∷ joined r.1) }
{
    if let Some((c, first)) = next_char(text.first) {
        let left = Pieces {
            first,
            second: text.second,
            third: text.third,
        };
        return Some((c, left));
    }
    if let Some((c, first)) = next_char(text.second) {
        let left = Pieces {
            first,
            second: text.third,
            third: "",
        };
        return Some((c, left));
    }
    let (c, first) = next_char(text.third)?;
    let left = Pieces {
        first,
        second: "",
        third: "",
    };
    Some((c, left))
}

// A text in one piece.
pub(crate) fn one_piece(text: &str) -> Pieces
    ensures { joined result ≡ chars text.now }
{
    Pieces {
        first: text,
        second: "",
        third: "",
    }
}

// Nothing is left.
pub(crate) fn is_end(text: Pieces) -> bool
    ensures { result ≡ is_nothing (joined text.entry) }
{
    next(text).is_none()
}
