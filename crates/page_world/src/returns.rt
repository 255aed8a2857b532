ghost use Rattle.std.specs.Prelude.{◌≡◌, [], ◌∷◌, List, ℕ, None, OnOk, option_map};
ghost use Rattle.gtm_data.specs.Tree.{tree_of};
ghost use Rattle.page_world.specs.Returns.{forgotten, with_return};
ghost use Rattle.page_world.specs.Returned.{returned_in, returned_below};

use gtm_base::{Keyed, OutOfMemory, Text};
use gtm_data::Data;
use std::alloc::Global;

/// What the page's functions return that were told of, by the parts of their keys: a tree, as deep
/// as the longest key has parts.
#[derive(Drop)]
pub struct Returns {
    told: Option<Data>,
    below: Keyed<Returns>,
}

impl Returns {
    /// Nothing was told of. Takes no memory.
    pub fn new(alloc: Global) -> Returns
        ensures { (parts : List (List ℕ)) → returned_in result parts ≡ None }
    {
        Returns {
            told: None,
            below: Keyed::new(alloc),
        }
    }

    /// What the function at these parts returns, or `None` where none was told of. Takes no memory.
    #[cycle(get)]
    pub fn get(&self, parts: &[Text]) -> Option<&Data>
        ensures { option_map (λ found. tree_of found.now) result
            ≡ returned_in self.now parts.now }
    {
        match parts {
            [] => self.here(),
            [part, rest @ ..] => self.get_below(part, rest),
        }
    }

    // What the function itself returns.
    fn here(&self) -> Option<&Data>
        ensures { option_map (λ found. tree_of found.now) result ≡ returned_in self.now [] }
    {
        match &self.told {
            Some(value) => Some(value),
            None => None,
        }
    }

    // The same of a path with a first part.
    #[cycle(get)]
    fn get_below(&self, part: &Text, rest: &[Text]) -> Option<&Data>
        ensures { option_map (λ found. tree_of found.now) result
            ≡ returned_in self.now (part.now ∷ rest.now) }
    {
        match self.below.get(part.as_str()) {
            Some(below) => below.get(rest),
            None => None,
        }
    }
}

/// Forgets what the functions at and below these parts return. Takes no memory.
#[cycle(forget)]
pub fn forget(alloc: Global, parts: &[Text], returns: &mut Returns)
    ensures { (others : List (List ℕ))
        → returned_in returns.new others ≡ forgotten parts.now (returned_in returns.old) others }
{
    match parts {
        [] => *returns = Returns::new(alloc),
        [part, rest @ ..] => forget_within(alloc, part, rest, returns),
    }
}

// The same of a path with a first part.
#[cycle(forget)]
fn forget_within(alloc: Global, part: &Text, rest: &[Text], returns: &mut Returns)
    ensures { (others : List (List ℕ)) → returned_in returns.new others
        ≡ forgotten (part.now ∷ rest.now) (returned_in returns.old) others }
{
    forget_below(alloc, part, rest, &mut returns.below);
}

#[cycle(forget)]
fn forget_below(alloc: Global, part: &Text, rest: &[Text], below: &mut Keyed<Returns>)
    ensures { (other : List ℕ) (others : List (List ℕ))
        → returned_below below.new.pairs (other ∷ others)
        ≡ forgotten (part.now ∷ rest.now) (returned_below below.old.pairs) (other ∷ others) }
{
    if let Some(at) = below.place_of(part.as_str()) {
        forget(alloc, rest, below.value_mut(at));
    }
}

/// Lets the function at these parts return this. Where memory is wanting, all that was told of
/// stays as it was, but there may be places for more.
#[cycle(tell)]
pub fn tell(
    alloc: Global,
    parts: &[Text],
    value: Data,
    returns: &mut Returns,
) -> Result<(), OutOfMemory>
    ensures { OnOk result ((others : List (List ℕ)) → returned_in returns.new others
        ≡ with_return parts.now (tree_of value) (returned_in returns.old) others) }
{
    match parts {
        [] => {
            tell_here(value, returns);
            Ok(())
        },
        [part, rest @ ..] => tell_within(alloc, part, rest, value, returns),
    }
}

// Lets the function itself return this.
fn tell_here(value: Data, returns: &mut Returns)
    ensures { (others : List (List ℕ)) → returned_in returns.new others
        ≡ with_return [] (tree_of value) (returned_in returns.old) others }
{
    returns.told = Some(value);
}

// The same of a path with a first part.
#[cycle(tell)]
fn tell_within(
    alloc: Global,
    part: &Text,
    rest: &[Text],
    value: Data,
    returns: &mut Returns,
) -> Result<(), OutOfMemory>
    ensures { OnOk result ((others : List (List ℕ)) → returned_in returns.new others
        ≡ with_return (part.now ∷ rest.now) (tree_of value) (returned_in returns.old) others) }
{
    tell_below(alloc, part, rest, value, &mut returns.below)
}

#[cycle(tell)]
fn tell_below(
    alloc: Global,
    part: &Text,
    rest: &[Text],
    value: Data,
    below: &mut Keyed<Returns>,
) -> Result<(), OutOfMemory>
    ensures { OnOk result ((other : List ℕ) (others : List (List ℕ))
        → returned_below below.new.pairs (other ∷ others)
        ≡ with_return (part.now ∷ rest.now) (tree_of value)
        (returned_below below.old.pairs) (other ∷ others)) }
{
    match below.place_of(part.as_str()) {
        Some(at) => tell(alloc, rest, value, below.value_mut(at)),
        None => {
            let mut returns = Returns::new(alloc);
            tell(alloc, rest, value, &mut returns)?;
            below.push(part.copy(alloc)?, returns)
        },
    }
}
