ghost use Rattle.std.specs.Prelude.{◌≡◌, ◌<◌, ◌↔◌, ◌∷◌, [], length, replicate, false, IsTrue};
ghost use Rattle.std.specs.Prelude.{Contains, IfOk, OnOk};
ghost use Rattle.reference_cycles.specs.Reached.{IsMarked, Grows};

use gtm_base::OutOfMemory;
use std::alloc::Global;

/// The places that a search has reached, in the order in which it did, each once and with a mark.
#[derive(Drop)]
pub struct Reached {
    pub marks: Vec<bool>,
    pub places: Vec<usize>,
}

impl Reached {
    /// None of so many places.
    pub fn new(alloc: Global, count: usize) -> Result<Reached, OutOfMemory>
        ensures none { IfOk result (λ made. made.places.items ≡ []) }
        ensures unmarked { IfOk result (λ made. made.marks.items ≡ replicate count false) }
    {
        Ok(Reached {
            marks: vec![in alloc; false; count]?,
            places: Vec::new(alloc),
        })
    }

    /// Whether the place is reached.
    pub fn has(&self, place: usize) -> bool
        requires { IsMarked self.now.marks.items self.now.places.items }
        ensures { IsTrue result ↔ Contains self.now.places.items place }
    {
        self.marks.get(place).copied().unwrap_or(false)
    }

    /// Reaches the place, where there is such a one. Fails where memory is wanting.
    fn add(&mut self, place: usize) -> Result<(), OutOfMemory>
        requires { IsMarked self.old.marks.items self.old.places.items }
        ensures marked { OnOk result (IsMarked self.new.marks.items self.new.places.items) }
        ensures room { length self.new.marks.items ≡ length self.old.marks.items }
        ensures grows { OnOk result
            (Grows (length self.old.marks.items) (place ∷ []) self.old.places.items
            self.new.places.items) }
    {
        if place < self.marks.len() && !self.marks[place] {
            self.marks[place] = true;
            self.places.push(place)?;
        }
        Ok(())
    }

    /// Reaches these places, where there are such ones. Fails where memory is wanting.
    pub fn add_all(&mut self, places: &[usize]) -> Result<(), OutOfMemory>
        requires { IsMarked self.old.marks.items self.old.places.items }
        ensures marked { OnOk result (IsMarked self.new.marks.items self.new.places.items) }
        ensures room { length self.new.marks.items ≡ length self.old.marks.items }
        ensures grows { OnOk result
            (Grows (length self.old.marks.items) places.now self.old.places.items
            self.new.places.items) }
    {
        for place in places {
            self.add(*place)?;
        }
        Ok(())
    }
}
