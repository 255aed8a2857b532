ghost use Rattle.std.specs.Prelude.{◌≡◌, ◌≤◌, ◌<◌, ◌↔◌, [], ◌∷◌, ◌++◌, length, slice_get};
ghost use Rattle.std.specs.Prelude.{slice_index_or, slice_set, insert, remove, reverse, IsTrue};
ghost use Rattle.std.specs.Prelude.{MatchOption, IfOk, OnOk, OnErr};
ghost use Rattle.std.specs.Option.{option_copied};

use crate::OutOfMemory;
use std::alloc::Global;
use std::marker::Model;

/// A `Vec` that contracts see as the list of its items, so that two of the same items are equal.
#[derive(Debug, Drop)]
pub struct ListOf<T> {
    inner: Vec<T>,
}

impl<T> Model for ListOf<T> {
    ghost use Rattle.std.specs.Prelude.{List};
    ghost use Rattle.std.specs.Coded.{coded_list};

    ghost Value = { List T };

    ghost coded = { coded_list T.code };

    ghost view = { λ list. list.inner.items };
}

impl<T> ListOf<T> {
    /// The empty list. Takes no memory.
    pub fn new(alloc: Global) -> ListOf<T>
        ensures { result ≡ [] }
    {
        ListOf {
            inner: Vec::new(alloc),
        }
    }

    /// The items as a slice. Takes no memory.
    pub fn as_slice(&self) -> &[T]
        ensures { result.now ≡ self.now }
    {
        self.inner.as_slice()
    }

    /// The number of items.
    pub fn len(&self) -> usize
        ensures { result ≡ length self.now }
    {
        self.inner.len()
    }

    /// Whether it has no item.
    pub fn is_empty(&self) -> bool
        ensures { IsTrue result ↔ (self.now ≡ []) }
    {
        self.inner.is_empty()
    }

    /// The item at a place, counted from 0, or `None` behind the last.
    pub fn get(&self, at: usize) -> Option<&T>
        ensures { option_copied result ≡ slice_get self.now at }
    {
        self.inner.get(at)
    }

    /// Takes out the last item, or answers `None` where there is none.
    pub fn pop(&mut self) -> Option<T>
        ensures { MatchOption result ((self.old ≡ []) × (self.new ≡ []))
            (λ last. self.old ≡ self.new ++ last ∷ []) }
    {
        self.inner.pop()
    }

    /// Turns the order of the items round.
    pub fn reverse(&mut self)
        ensures { self.new ≡ reverse self.old }
    {
        self.inner.reverse()
    }
}

impl<T> ListOf<T> {
    ghost use Rattle.std.specs.Borrow.{Lends, sem};
    ghost use Rattle.gtm_base.specs.contracts.list.ListOf.{the_row};

    /// The item at a place, to be changed there.
    pub fn get_mut(&mut self, at: usize) -> &mut T
        requires { at < length self.old }
        ensures* writes_back { sem 𝓛
            (Lends (the_row T.row) T.row self.entry result (slice_set self.old at)) }
        ensures value { result.now ≡ slice_index_or self.old at result.now }
    {
        &mut self.inner[at]
    }
}

impl<T: Drop> ListOf<T> {
    /// Puts an item behind the last. Where memory is wanting, the item is dropped and the list
    /// stays as it was.
    pub fn push(&mut self, item: T) -> Result<(), OutOfMemory>
        ensures ok { OnOk result (self.new ≡ self.old ++ item ∷ []) }
        ensures err { OnErr result (self.new ≡ self.old) }
    {
        self.inner.push(item)?;
        Ok(())
    }

    /// Puts an item before the one at a place, or behind the last. Where memory is wanting, the
    /// item is dropped and the list stays as it was.
    pub fn insert(&mut self, at: usize, item: T) -> Result<(), OutOfMemory>
        requires { at ≤ length self.old }
        ensures ok { OnOk result (self.new ≡ insert self.old at item) }
        ensures err { OnErr result (self.new ≡ self.old) }
    {
        self.inner.insert(at, item)?;
        Ok(())
    }

    /// Takes out the item at a place.
    pub fn remove(&mut self, at: usize) -> T
        requires { at < length self.old }
        ensures item { slice_get self.old at ≡ Some result }
        ensures rest { self.new ≡ remove self.old at }
    {
        self.inner.remove(at)
    }
}

impl<T: Copy> ListOf<T> {
    /// A list of the same items.
    pub fn from_slice(alloc: Global, items: &[T]) -> Result<ListOf<T>, OutOfMemory>
        ensures { IfOk result (λ made. made ≡ items.now) }
    {
        Ok(ListOf {
            inner: Vec::from_slice(alloc, items)?,
        })
    }
}
