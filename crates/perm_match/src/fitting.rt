ghost use Rattle.std.specs.Prelude.{◌≡◌};
ghost use Rattle.std.specs.List.{list_any};
ghost use Rattle.perm_model.specs.Texts.{fits, ends_of};
ghost use Rattle.perm_match.specs.Pieces.{joined};
ghost use Rattle.perm_match.specs.Fitting.{step, stepped};

use crate::pieces::{Pieces, is_end, next};

/// What the characters of a pattern before its first `*` come to.
pub(crate) enum Step<'a> {
    /// They stand at the front of the text: the pattern behind the `*`, and the text behind them.
    Star(Pieces<'a>, Pieces<'a>),
    /// They do not, or the pattern has no `*`: whether the pattern is the text.
    Done(bool),
}

// Whether a text is the pattern with some run of characters, or none, in place of each `*`.
pub(crate) fn fits(pattern: Pieces, text: Pieces) -> bool
    ensures { result ≡ fits (joined pattern.entry) (joined text.entry) }
{
    match read_piece(pattern, text) {
        Step::Star(rest, behind) => fits_an_end(rest, behind),
        Step::Done(is) => is,
    }
}

// Whether a pattern fits the text, or what is left of it behind some run of characters. The first
// place where the characters before a `*` stand serves as well as any other, so no step is undone.
fn fits_an_end(pattern: Pieces, text: Pieces) -> bool
    ensures { result ≡ list_any (fits (joined pattern.entry)) (ends_of (joined text.entry)) }
{
    let mut left = pattern;
    let mut here = text;
    'ends: loop {
        match read_piece(left, here) {
            Step::Star(rest, behind) => {
                left = rest;
                here = behind;
            },
            Step::Done(true) => return true,
            Step::Done(false) => match next(here) {
                Some((_, behind)) => here = behind,
                None => return false,
            },
        }
    }
}

fn read_piece<'a>(pattern: Pieces<'a>, text: Pieces<'a>) -> Step<'a>
    ensures { stepped result ≡ step (joined pattern.entry) (joined text.entry) }
{
    let mut left = pattern;
    let mut here = text;
    while let Some((c, rest)) = next(left) {
        if c == '*' {
            return Step::Star(rest, here);
        }
        match next(here) {
            Some((d, behind)) => {
                if c != d {
                    return Step::Done(false);
                }
                left = rest;
                here = behind;
            },
            None => return Step::Done(false),
        }
    }
    Step::Done(is_end(here))
}
