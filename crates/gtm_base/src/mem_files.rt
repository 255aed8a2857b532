ghost use Rattle.std.specs.Prelude.{◌≡◌, ◌≤◌, ◌<◌, ◌^◌, [], ◌++◌, ◌∷◌, length, take, drop, min};
ghost use Rattle.std.specs.Prelude.{false, Some, None, IsTrue, IsSome, is_err, IsOk, IsErr, IfOk};
ghost use Rattle.std.specs.Prelude.{OnOk, OnErr};
ghost use Rattle.std.specs.Str.{chars};
ghost use Rattle.std.specs.Prelude.{◌+◌, option_map, slice_get};
ghost use Rattle.gtm_base.specs.Causes.{Counts, one_more};
ghost use Rattle.gtm_base.specs.Keys.{value_of, place_of};
ghost use Rattle.gtm_base.specs.Memory.{with_file, name_in, left_in, is_among, left_count};
ghost use Rattle.gtm_base.specs.Memory.{faults_after_open};
ghost use Rattle.gtm_base.specs.Outside.{AddsName, followed_by};

use crate::handed::keep_name;
use crate::{FileFailed, Files, Keyed, ListOf, OutOfMemory, Text, Texts};
use std::alloc::Global;
use std::marker::Model;

/// Files in memory, some of whose calls can be made to fail.
#[derive(Drop)]
pub struct MemFiles {
    alloc: Global,
    files: Keyed<ListOf<u8>>,
    failing: Vec<u64>,
    calls: u64,
    faults: u64,
    // The place of the open file among the files, and how many of its bytes were read.
    file: Option<usize>,
    done: usize,
    names: Option<Texts>,
}

impl Model for MemFiles {
    ghost use Rattle.gtm_base.specs.Memory.{MemoryFiles};

    ghost Value = { MemoryFiles };

    ghost use Rattle.gtm_base.specs.MemoryView.{memory_files, HasPlace};

    ghost view = { memory_files };

    ghost invariant = { HasPlace };
}

impl MemFiles {
    /// No files, and no call that is to fail. Takes no memory.
    pub fn new(alloc: Global) -> MemFiles
        ensures { result ≡ record {
          held = [];
          failing = [];
          calls = 0;
          faults = 0;
          file = None;
          done = 0;
          names = Some [];
        } }
    {
        MemFiles {
            alloc,
            files: Keyed::new(alloc),
            failing: Vec::new(alloc),
            calls: 0,
            faults: 0,
            file: None,
            done: 0,
            names: Some(Texts::new(alloc)),
        }
    }

    /// Holds these bytes under this name, in place of what it held there. Where memory is wanting,
    /// all stays as it was.
    pub fn add(&mut self, name: &str, bytes: &[u8]) -> Result<(), OutOfMemory>
        ensures ok { OnOk result (self.new
            ≡ record self.old { held = with_file self.old.held (chars name.now) bytes.now }) }
        ensures err { OnErr result (self.new ≡ self.old) }
    {
        let bytes = ListOf::from_slice(self.alloc, bytes)?;
        match self.files.place_of(name) {
            Some(at) => {
                *self.files.value_mut(at) = bytes;
                Ok(())
            },
            None => self.files.push(Text::from_str(self.alloc, name)?, bytes),
        }
    }

    /// Lets this call of `open` and `read` fail, counted together from 1. Where memory is wanting,
    /// all stays as it was.
    pub fn fail_at(&mut self, call: u64) -> Result<(), OutOfMemory>
        ensures ok { OnOk result
            (self.new ≡ record self.old { failing = self.old.failing ++ call ∷ [] }) }
        ensures err { OnErr result (self.new ≡ self.old) }
    {
        self.failing.push(call)?;
        Ok(())
    }
}

impl Files for MemFiles {
    ghost use Rattle.gtm_base.specs.Memory.{files_state};

    ghost state = { files_state };

    /// Counts the call. Fails where the name is not held, and else only where this call is to fail.
    fn open(&mut self, name: &str) -> Result<(), FileFailed>
        ensures names { AddsName self.old.names self.new.names (chars name.now) }
        ensures bytes { OnOk result (left_in self.new ≡ value_of (chars name.now) self.old.held) }
        ensures holds { OnOk result (IsSome (value_of (chars name.now) self.old.held)) }
        ensures open_name { OnOk result (name_in self.new ≡ Some (chars name.now)) }
        ensures absent { value_of (chars name.now) self.old.held ≡ None → IsErr result }
        ensures later { self.old.faults ≤ self.new.faults }
        ensures ok { OnOk result (self.new ≡ record self.old {
          calls = one_more self.old.calls;
          file = place_of (chars name.now) self.old.held;
          done = 0;
          names = self.new.names;
        }) }
        ensures err { OnErr result (self.new ≡ record self.old {
          calls = one_more self.old.calls;
          faults = faults_after_open self.old (chars name.now);
          file = None;
          names = self.new.names;
        }) }
        ensures fails { IsTrue (is_among self.old.failing (one_more self.old.calls))
            → IsErr result }
        ensures opens { IsSome (value_of (chars name.now) self.old.held)
            → is_among self.old.failing (one_more self.old.calls) ≡ false
            → IsOk result }
    {
        self.file = None;
        keep_name(self.alloc, &mut self.names, name);
        let fails = fails_now(self.failing.as_slice(), &mut self.calls);
        match self.files.place_of(name) {
            None => Err(FileFailed),
            Some(_) if fails => {
                self.faults = self.faults.saturating_add(1);
                Err(FileFailed)
            },
            Some(place) => {
                self.file = Some(place);
                self.done = 0;
                Ok(())
            },
        }
    }

    /// Counts the call. Reads as much as there is room for, and fails only where this call is to
    /// fail.
    fn read(&mut self, piece: &mut [u8]) -> Result<usize, FileFailed>
        requires { IsSome self.old.file }
        ensures count { IfOk result
            (λ count. count ≡ min (length piece.old) (left_count self.old)) }
        ensures bytes { IfOk result
            (λ count. left_in self.old ≡ followed_by (take count piece.new) (left_in self.new)) }
        ensures rest { IfOk result (λ count. drop count piece.new ≡ drop count piece.old) }
        ensures untouched { OnErr result (piece.new ≡ piece.old) }
        ensures ok { IfOk result (λ count. self.new ≡ record self.old {
          calls = one_more self.old.calls;
          done = self.old.done + count;
        }) }
        ensures err { OnErr result (self.new ≡ record self.old {
          calls = one_more self.old.calls;
          faults = one_more self.old.faults;
        }) }
        ensures counted { Counts (is_err result) self.old.faults self.new.faults }
        ensures fails { IsTrue (is_among self.old.failing (one_more self.old.calls))
            → IsErr result }
        ensures reads { is_among self.old.failing (one_more self.old.calls) ≡ false
            → IsOk result }
    {
        if fails_now(self.failing.as_slice(), &mut self.calls) {
            self.faults = self.faults.saturating_add(1);
            return Err(FileFailed);
        }
        let Some(place) = self.file else {
            unreachable!()
        };
        let left = left_of(self.files.as_slice(), place, self.done);
        let count = copy_front(left, piece);
        self.done += count;
        Ok(count)
    }

    fn faults(&self) -> u64 {
        self.faults
    }
}

// Whether the call that begins here is to fail.
fn fails_now(failing: &[u64], calls: &mut u64) -> bool
    ensures calls { calls.new ≡ one_more calls.old }
    ensures fails { result ≡ is_among failing.now (one_more calls.old) }
{
    *calls = calls.saturating_add(1);
    failing.contains(calls)
}

// What was not read yet of the file at this place.
fn left_of(files: &[(Text, ListOf<u8>)], place: usize, done: usize) -> &[u8]
    requires { place < length files.now }
    ensures bytes { option_map (λ pair. drop done pair.1) (slice_get files.now place)
        ≡ Some result.now }
    ensures short { done + length result.now < 2 ^ 64 }
{
    let bytes = files[place].1.as_slice();
    if done < bytes.len() {
        &bytes[done..]
    } else {
        &bytes[..0]
    }
}

// Copies as much of the front as there is room for.
fn copy_front(left: &[u8], piece: &mut [u8]) -> usize
    ensures count { result ≡ min (length piece.old) (length left.now) }
    ensures front { take result piece.new ≡ take result left.now }
    ensures rest { drop result piece.new ≡ drop result piece.old }
{
    let count = left.len().min(piece.len());
    piece[..count].copy_from_slice(&left[..count]);
    count
}
