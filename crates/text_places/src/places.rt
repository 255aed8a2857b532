ghost use Rattle.std.specs.Prelude.{◌≡◌, IfOk, MatchOption, map};
ghost use Rattle.std.specs.Str.{chars};
ghost use Rattle.text_places.specs.Places.{place_of, IsFirstPlace, Lacks};
ghost use Rattle.text_places.specs.Indexed.{Indexes};

use gtm_base::{OutOfMemory, Text};
use std::alloc::Global;
use std::collections::BTreeMap;
use std::marker::Model;

/// A list of texts, in which the first place of a text is found in about log n steps.
#[derive(Drop)]
pub struct Places<'a> {
    texts: Vec<&'a Text>,
    first: BTreeMap<&'a str, usize>,
}

impl<'a> Model for Places<'a> {
    ghost use Rattle.std.specs.Prelude.{List, ℕ, map};
    ghost use Rattle.text_places.specs.Indexed.{Indexes};

    ghost Value = { List (List ℕ) };

    ghost view = { λ places. map (λ t. t.now) places.texts.items };

    ghost invariant = { λ places.
        Indexes places.first (map (λ t. t.now) places.texts.items) };
}

impl<'a> Places<'a> {
    /// The places of these texts. Fails where memory is wanting.
    pub fn of(alloc: Global, texts: Vec<&'a Text>) -> Result<Places<'a>, OutOfMemory>
        ensures { IfOk result (λ made. made ≡ map (λ t. t.now) texts.entry.items) }
    {
        let first = first_places(alloc, texts.as_slice())?;
        Ok(Places { texts, first })
    }

    /// The place of the first text that is this one, counted from 0, or `None` where none is.
    pub fn place(&self, text: &str) -> Option<usize>
        ensures first { let wanted = chars text.now in
            MatchOption result (Lacks self.now wanted) (IsFirstPlace self.now wanted) }
        ensures computed { result ≡ place_of (chars text.now) self.now }
    {
        self.first.get(text).copied()
    }
}

/// A map from each of these texts to its first place. Fails where memory is wanting.
fn first_places<'a>(
    alloc: Global,
    texts: &[&'a Text],
) -> Result<BTreeMap<&'a str, usize>, OutOfMemory>
    ensures { IfOk result (λ first. Indexes first (map (λ t. t.now) texts.now)) }
{
    let mut first = BTreeMap::new(alloc);
    for (at, text) in texts.iter().enumerate() {
        let key = text.as_str();
        if !first.contains_key(key) {
            first.insert(key, at)?;
        }
    }
    Ok(first)
}
