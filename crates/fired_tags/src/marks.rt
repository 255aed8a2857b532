ghost use Rattle.std.specs.Prelude.{◌≡◌, ◌||◌, ◌<◌, ℕ, IfOk, OnOk, false, length, nat_eq};
ghost use Rattle.std.specs.Prelude.{slice_index_or};
ghost use Rattle.fired_tags.specs.Marks.{AreMarks};

use gtm_base::OutOfMemory;
use std::alloc::Global;

/// Marks for exactly these places. Fails where memory is wanting.
pub fn marks_of(alloc: Global, places: &[u32]) -> Result<Vec<bool>, OutOfMemory>
    ensures { IfOk result (λ marks. AreMarks marks.items places.now) }
{
    let mut marks = Vec::new(alloc);
    for at in places {
        mark(&mut marks, *at as usize)?;
    }
    Ok(marks)
}

/// Whether a place has a mark. Takes no memory.
pub fn is_marked(marks: &Vec<bool>, at: u32) -> bool
    ensures { result ≡ slice_index_or marks.now.items at false }
{
    match marks.get(at as usize) {
        Some(mark) => *mark,
        None => false,
    }
}

// Gives a place a mark.
fn mark(marks: &mut Vec<bool>, at: usize) -> Result<(), OutOfMemory>
    ensures { OnOk result ((other : ℕ) → slice_index_or marks.new.items other false
        ≡ (nat_eq other at || slice_index_or marks.old.items other false)) }
{
    reach(marks, at)?;
    marks[at] = true;
    Ok(())
}

// Makes room for a place, with no more marks.
fn reach(marks: &mut Vec<bool>, at: usize) -> Result<(), OutOfMemory>
    ensures room { OnOk result (at < length marks.new.items) }
    ensures same { OnOk result ((other : ℕ) → slice_index_or marks.new.items other false
        ≡ slice_index_or marks.old.items other false) }
{
    while marks.len() <= at {
        marks.push(false)?;
    }
    Ok(())
}
