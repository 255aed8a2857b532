ghost use Rattle.std.specs.Prelude.{◌≡◌, ◌≤◌, ◌<◌, [], ◌∷◌, ◌++◌, length, insert, false, IfSome};
ghost use Rattle.std.specs.Prelude.{IfNone, OnOk, OnErr};
ghost use Rattle.std.specs.Option.{option_copied};
ghost use Rattle.std.specs.Str.{chars};
ghost use Rattle.std.specs.Prelude.{IsTrue};
ghost use Rattle.gtm_base.specs.KeyPlaces.{places_of};
ghost use Rattle.gtm_base.specs.Keys.{has_key, distinct_keys, value_of, place_of};

use crate::key_places::{KeyPlaces, MAX_SCANNED};
use crate::{ListOf, OutOfMemory, Text};
use std::alloc::Global;

/// Pairs of a key and a value, in order. No two have the same key.
#[derive(Debug, Drop)]
pub struct Keyed<T> {
    pub pairs: ListOf<(Text, T)>,
    places: KeyPlaces,
    ghost distinct: { IsTrue (distinct_keys pairs) },
    ghost kept: { places ≡ places_of pairs },
}

impl<T> Keyed<T> {
    /// No pairs. Takes no memory.
    pub fn new(alloc: Global) -> Keyed<T>
        ensures { result.pairs ≡ [] }
    {
        Keyed {
            pairs: ListOf::new(alloc),
            places: KeyPlaces::new(alloc),
        }
    }

    /// The pairs in order. Takes no memory.
    pub fn as_slice(&self) -> &[(Text, T)]
        ensures { result.now ≡ self.now.pairs }
    {
        self.pairs.as_slice()
    }

    /// The number of pairs.
    pub fn len(&self) -> usize
        ensures { result ≡ length self.now.pairs }
    {
        self.pairs.len()
    }

    /// The place of the pair with this key, counted from 0, or `None` where no pair has it.
    pub fn place_of(&self, key: &str) -> Option<usize>
        ensures place { result ≡ place_of (chars key.now) self.now.pairs }
        ensures within { IfSome result (λ at. at < length self.now.pairs) }
        ensures absent { IfNone result (has_key (chars key.now) self.now.pairs ≡ false) }
    {
        if self.pairs.len() > MAX_SCANNED {
            self.places.get(key)
        } else {
            scan(self.pairs.as_slice(), key)
        }
    }

    /// The value at this key, or `None` where no pair has it.
    pub fn get(&self, key: &str) -> Option<&T>
        ensures { option_copied result ≡ value_of (chars key.now) self.now.pairs }
    {
        match self.place_of(key) {
            Some(at) => Some(&self.pairs.as_slice()[at].1),
            None => None,
        }
    }
}

// The place of the pair with this key, by a look at each.
fn scan<T>(pairs: &[(Text, T)], key: &str) -> Option<usize>
    ensures { result ≡ place_of (chars key.now) pairs.now }
{
    for (at, pair) in pairs.iter().enumerate() {
        if pair.0.is(key) {
            return Some(at);
        }
    }
    None
}

impl<T> Keyed<T> {
    ghost use Rattle.std.specs.Prelude.{◌≡◌, ◌<◌, length};
    ghost use Rattle.std.specs.Borrow.{sem};
    ghost use Rattle.gtm_base.specs.Keys.{value_at};
    ghost use Rattle.gtm_base.specs.LentValue.{LendsValue};

    /// The value at a place, to be changed there.
    pub fn value_mut(&mut self, at: usize) -> &mut T
        requires { at < length self.old.pairs }
        ensures* writes_back { sem 𝓛 (LendsValue T.row self.entry at result) }
        ensures value { result.now ≡ value_at self.old.pairs at result.now }
    {
        let pair = self.pairs.get_mut(at);
        &mut pair.1
    }
}

impl<T: Drop> Keyed<T> {
    /// Puts a pair behind the last, with a key that none has. Where memory is wanting, the pair is
    /// dropped and the others stay as they were.
    pub fn push(&mut self, key: Text, value: T) -> Result<(), OutOfMemory>
        requires { has_key key self.old.pairs ≡ false }
        ensures ok { OnOk result (self.new.pairs ≡ self.old.pairs ++ (key, value) ∷ []) }
        ensures err { OnErr result (self.new.pairs ≡ self.old.pairs) }
    {
        push_pair(&mut self.pairs, &mut self.places, (key, value))
    }

    /// Puts a pair before the one at a place, counted from 0, or behind the last, with a key that
    /// none has, where there are fewer than `MAX_SCANNED`. Where memory is wanting, the pair is
    /// dropped and the others stay as they were.
    pub fn insert(&mut self, at: usize, key: Text, value: T) -> Result<(), OutOfMemory>
        requires new { has_key key self.old.pairs ≡ false }
        requires within { at ≤ length self.old.pairs }
        requires few { length self.old.pairs < MAX_SCANNED }
        ensures ok { OnOk result (self.new.pairs ≡ insert self.old.pairs at (key, value)) }
        ensures err { OnErr result (self.new.pairs ≡ self.old.pairs) }
    {
        self.pairs.insert(at, (key, value))
    }
}

// Puts a pair behind the last, and keeps its place where there are many. Where memory is wanting,
// the pair is dropped and all stays as it was.
fn push_pair<T: Drop>(
    pairs: &mut ListOf<(Text, T)>,
    places: &mut KeyPlaces,
    pair: (Text, T),
) -> Result<(), OutOfMemory>
    requires { places.old ≡ places_of pairs.old }
    ensures ok { OnOk result (pairs.new ≡ pairs.old ++ pair ∷ []) }
    ensures err { OnErr result (pairs.new ≡ pairs.old) }
    ensures kept { places.new ≡ places_of pairs.new }
{
    pairs.push(pair)?;
    if places.follow(pairs.as_slice()).is_err() {
        let _ = pairs.pop();
        return Err(OutOfMemory);
    }
    Ok(())
}
