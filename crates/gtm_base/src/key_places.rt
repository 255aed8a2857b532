ghost use Rattle.std.specs.Prelude.{◌≡◌, ◌-◌, ◌<◌, [], None, Some, length, take, IfOk, OnOk};
ghost use Rattle.std.specs.Prelude.{OnErr, option_map, option_and_then};
ghost use Rattle.std.specs.Str.{chars};
ghost use Rattle.gtm_base.specs.KeyPlaces.{kept_place, places_in, places_of, with_place};
ghost use Rattle.gtm_base.specs.KeyPlaces.{with_places};

use crate::{OutOfMemory, Text};
use std::alloc::Global;
use std::collections::BTreeMap;
use std::marker::Model;

/// Of at most so many pairs each one is looked at to find a key.
pub const MAX_SCANNED: usize = 64;

/// The places of the keys of many pairs, by which one is found without a look at each pair.
#[derive(Debug, Drop)]
pub struct KeyPlaces {
    alloc: Global,
    places: Option<Box<BTreeMap<String, usize>>>,
}

impl Model for KeyPlaces {
    ghost use Rattle.std.specs.Prelude.{Option, option_map};
    ghost use Rattle.gtm_base.specs.KeyPlaces.{Places, places_in};

    ghost Value = { Option Places };

    ghost view = { λ kept. option_map (λ tree. places_in tree.value) kept.places };
}

impl KeyPlaces {
    /// None are kept. Takes no memory.
    pub fn new(alloc: Global) -> KeyPlaces
        ensures { result ≡ None }
    {
        KeyPlaces {
            alloc,
            places: None,
        }
    }

    /// The place that is kept for a key.
    pub fn get(&self, key: &str) -> Option<usize>
        ensures { result ≡ option_and_then (kept_place (chars key.now)) self.now }
    {
        match &self.places {
            Some(places) => places.get(key).copied(),
            None => None,
        }
    }

    /// Keeps the places of these pairs, of which the last one is new. Where memory is wanting, all
    /// stays as it was.
    pub fn follow<T>(&mut self, pairs: &[(Text, T)]) -> Result<(), OutOfMemory>
        requires some { 0 < length pairs.now }
        requires before { self.old ≡ places_of (take (length pairs.now - 1) pairs.now) }
        ensures ok { OnOk result (self.new ≡ places_of pairs.now) }
        ensures err { OnErr result (self.new ≡ self.old) }
    {
        let last = pairs.len() - 1;
        match &mut self.places {
            Some(places) => put(self.alloc, places, &pairs[last].0, last),
            None => {
                if last == MAX_SCANNED {
                    let places = all_places(self.alloc, pairs)?;
                    self.places = Some(Box::new(self.alloc, places)?);
                }
                Ok(())
            },
        }
    }
}

// Puts the place of one more key. Where memory is wanting, all stays as it was.
fn put(
    alloc: Global,
    places: &mut BTreeMap<String, usize>,
    key: &Text,
    at: usize,
) -> Result<(), OutOfMemory>
    ensures ok { OnOk result
        (places_in places.new ≡ with_place key.now at (places_in places.old)) }
    ensures err { OnErr result (places_in places.new ≡ places_in places.old) }
{
    let key = String::from_str(alloc, key.as_str())?;
    places.insert(key, at)?;
    Ok(())
}

// The places of all these pairs.
fn all_places<T>(alloc: Global, pairs: &[(Text, T)]) -> Result<BTreeMap<String, usize>, OutOfMemory>
    ensures { IfOk result (λ places. places_in places ≡ with_places 0 pairs.now []) }
{
    let mut places = BTreeMap::new(alloc);
    for (at, pair) in pairs.iter().enumerate() {
        put(alloc, &mut places, &pair.0, at)?;
    }
    Ok(places)
}
