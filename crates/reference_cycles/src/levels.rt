ghost use Rattle.std.specs.Prelude.{◌≡◌, slice_index};

use crate::graph::references;
use gtm_base::{ListOf, OutOfMemory};
use std::alloc::Global;

/// A place on the path from a root to where the search is, and which of its references comes next.
#[derive(Clone, Copy)]
struct Visit {
    place: usize,
    next: usize,
}

/// A depth-first search for strongly connected components, each of which gets a level when it is
/// complete.
#[derive(Drop)]
struct Components {
    /// When each place was entered, counted from 1, and 0 before that.
    entered: Vec<usize>,
    /// The earliest place on the stack that each place is known to lead to, by when it was entered.
    earliest: Vec<usize>,
    /// The level of each place, counted from 1, and 0 while its component is not complete.
    levels: Vec<usize>,
    /// The places that were entered and have no level yet.
    stack: Vec<usize>,
    /// The places whose references are being followed.
    path: Vec<Visit>,
    /// How many places were entered.
    entries: usize,
    /// How many components are complete.
    complete: usize,
}

impl Components {
    fn new(alloc: Global, places: usize) -> Result<Components, OutOfMemory> {
        Ok(Components {
            entered: vec![in alloc; 0; places]?,
            earliest: vec![in alloc; 0; places]?,
            levels: vec![in alloc; 0; places]?,
            stack: Vec::new(alloc),
            path: Vec::new(alloc),
            entries: 0,
            complete: 0,
        })
    }

    fn is_entered(&self, place: usize) -> bool {
        number_at(self.entered.as_slice(), place) != 0
    }

    fn has_level(&self, place: usize) -> bool {
        number_at(self.levels.as_slice(), place) != 0
    }

    /// Puts a place on the stack and on the path.
    fn enter(&mut self, place: usize) -> Result<(), OutOfMemory> {
        self.entries = self.entries.saturating_add(1);
        set_number(&mut self.entered, place, self.entries);
        set_number(&mut self.earliest, place, self.entries);
        self.stack.push(place)?;
        self.path.push(Visit { place, next: 0 })?;
        Ok(())
    }

    /// Goes one reference further: into the place that it leads to, or back out of this one where
    /// none is left.
    fn follow(&mut self, visit: Visit, references: &[usize]) -> Result<(), OutOfMemory> {
        match references.get(visit.next) {
            Some(to) => {
                let next = visit.next.saturating_add(1);
                self.path.push(Visit {
                    place: visit.place,
                    next,
                })?;
                self.meet(visit.place, *to)
            }
            None => {
                self.leave(visit.place);
                Ok(())
            }
        }
    }

    /// Enters the place that a reference leads to, or notes it where it is on the stack.
    fn meet(&mut self, place: usize, to: usize) -> Result<(), OutOfMemory> {
        if to >= self.entered.len() {
            return Ok(());
        }
        if !self.is_entered(to) {
            self.enter(to)?;
        } else if !self.has_level(to) {
            let order = number_at(self.entered.as_slice(), to);
            self.lower(place, order);
        }
        Ok(())
    }

    /// Notes that the place leads to one on the stack that was entered then.
    fn lower(&mut self, place: usize, order: usize) {
        if order < number_at(self.earliest.as_slice(), place) {
            set_number(&mut self.earliest, place, order);
        }
    }

    /// Is done with a place: finishes its component where nothing on the stack before it is led to,
    /// and tells the place that led here how far back it leads.
    fn leave(&mut self, place: usize) {
        let earliest = number_at(self.earliest.as_slice(), place);
        if earliest == number_at(self.entered.as_slice(), place) {
            self.finish(place);
        }
        if let Some(above) = self.path.as_slice().last().copied() {
            self.lower(above.place, earliest);
        }
    }

    /// Gives a level to the component that was entered at this place.
    fn finish(&mut self, place: usize) {
        self.complete = self.complete.saturating_add(1);
        while let Some(member) = self.stack.pop() {
            set_number(&mut self.levels, member, self.complete);
            if member == place {
                return;
            }
        }
    }
}

/// The number at a place, which is 0 for a place behind the last one.
pub fn number_at(numbers: &[usize], place: usize) -> usize
    ensures { result ≡ slice_index numbers.now place }
{
    numbers.get(place).copied().unwrap_or(0)
}

fn set_number(numbers: &mut Vec<usize>, place: usize, number: usize) {
    if place < numbers.len() {
        numbers[place] = number;
    }
}

/// How many steps the search takes at most: two for each place, and one for each reference.
fn steps(graph: &[ListOf<usize>]) -> usize {
    let mut steps = 0usize;
    for places in graph {
        steps = steps.saturating_add(places.len()).saturating_add(2);
    }
    steps
}

/// A level for each place, so that no place refers to one of a higher level, and two places have
/// the same one where each leads to the other. Nothing is promised of them: who uses them has to
/// look.
pub fn component_levels(alloc: Global, graph: &[ListOf<usize>]) -> Result<Vec<usize>, OutOfMemory> {
    let mut components = Components::new(alloc, graph.len())?;
    let mut root = 0usize;
    for _ in 0..steps(graph) {
        match components.path.pop() {
            Some(visit) => components.follow(visit, references(graph, visit.place))?,
            None => {
                if root < graph.len() && !components.is_entered(root) {
                    components.enter(root)?;
                }
                root = root.saturating_add(1);
            }
        }
    }
    Ok(components.levels)
}
