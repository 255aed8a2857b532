ghost use Rattle.std.specs.Prelude.{◌≡◌, ◌≤◌, ◌<◌, ◌+◌, ◌++◌, ℕ, List, [], length, take, drop};
ghost use Rattle.std.specs.Prelude.{IsTrue, false, true, IsErrOf, OnOk, OnErr, if◌then◌else◌};
ghost use Rattle.std.specs.Option.{ForSome};
ghost use Rattle.memchr.specs.Find.{IsFirstByte, is_byte};
ghost use Rattle.gtm_base.specs.Outside.{ReadsOn, ReadWithin};
ghost use Rattle.trace_lines.specs.Holding.{HoldsMore, IsWithin, behind_line, exceeds, room_behind};
ghost use Rattle.trace_lines.specs.Lines.{TraceLine};
ghost use Rattle.trace_lines.specs.Reading.{Tells, at_start, is_read_fault, no_line, rest_of};
ghost use Rattle.trace_lines.specs.Standing.{Leads, StandsAt};

use gtm_base::{Files, OutOfMemory};
use memchr::memchr;
use std::alloc::Global;
use std::marker::Model;

/// A line has at most so many bytes without its LF.
pub const MAX_LINE: usize = 1_048_576;

/// A trace has at most so many bytes.
pub const MAX_TRACE: usize = 67_108_864;

// A file is asked for at most so many bytes at once.
const PIECE: usize = 4_096;

/// Why no line was handed out.
#[derive(Clone, Copy, Debug, PartialEq, Eq)]
pub enum LineEnd {
    /// Memory was wanted and was not there.
    OutOfMemory,
    /// A read of the file failed.
    ReadFault,
    /// The next line has more than `MAX_LINE` bytes without its LF, or does not end within the
    /// first `MAX_TRACE` bytes of the trace, its LF counted.
    TooLong,
}

/// The lines of an open trace, read in pieces as they are asked for.
#[derive(Drop)]
pub struct Lines {
    bytes: Vec<u8>,
    // The line that was handed out last, and whether an LF stood behind it.
    line_start: usize,
    line_len: usize,
    line_ended: bool,
    // Where the bytes begin that were not handed out, and among how many of these no LF was found.
    start: usize,
    searched: usize,
    // How many bytes of the trace stand before these.
    before: usize,
    // A read met the end of the file.
    at_end: bool,
}

impl Model for Lines {
    ghost use Rattle.trace_lines.specs.Reading.{Position};

    ghost Value = { Position };

    ghost use Rattle.trace_lines.specs.Buffer.{position_in, IsInOrder};

    ghost view = { position_in };

    ghost invariant = { IsInOrder };
}

impl Lines {
    /// At the start of a trace. Takes no memory.
    pub fn new(alloc: Global) -> Lines
        ensures value { result ≡ at_start }
        ensures start { (bytes : List ℕ) → StandsAt bytes [] result bytes }
    {
        Lines {
            bytes: Vec::new(alloc),
            line_start: 0,
            line_len: 0,
            line_ended: false,
            start: 0,
            searched: 0,
            before: 0,
            at_end: false,
        }
    }

    /// The line that was handed out last, without its LF.
    pub fn line(&self) -> &[u8]
        ensures { result.now ≡ self.now.line.text }
    {
        &self.bytes[self.line_start..self.line_start + self.line_len]
    }

    /// Hands out the next line of the open file, or answers false at its end. A last line without
    /// LF is a line unless it is empty.
    ///
    /// `ReadFault` comes only with a rise of the files' count. It loses no byte, and each line
    /// whose LF was read has been handed out before. `TooLong` comes where the next line is too
    /// long, which is never handed out. On every answer no byte is read behind the first that shows
    /// that a line is too long, and none once a read met the end of the file. After `OutOfMemory`,
    /// do not call again.
    pub fn next_line<F: Files>(&mut self, files: &mut F) -> Result<bool, LineEnd>
        requires { IsTrue (F.state files.old).is_open }
        ensures files { ReadsOn is_read_fault result (F.state files.old) (F.state files.new) }
        ensures told { Tells result self.old self.new
            (rest_of self.old (F.state files.old).left)
            (rest_of self.new (F.state files.new).left) }
        ensures stands { (bytes : List ℕ) (handed : List TraceLine)
            → ForSome (F.state files.old).left (StandsAt bytes handed self.old)
            → ForSome (F.state files.new).left (Leads result bytes handed self.new) }
        ensures end { IsTrue self.old.at_end → files.new ≡ files.old }
        ensures within { IsWithin self.new }
    {
        loop {
            if let Some(at) = self.find_end() {
                return self.hand_out(at, at + 1);
            }
            if self.is_at_end() {
                return match self.held_len() {
                    0 => Ok(false),
                    len => self.hand_out(len, len),
                };
            }
            let room = self.room();
            if room == 0 {
                return Err(LineEnd::TooLong);
            }
            self.read_more(files, room)?;
        }
    }

    // The place of the first LF among the bytes that are held.
    fn find_end(&mut self) -> Option<usize>
        ensures same { self.new ≡ self.old }
        ensures first { IsFirstByte (is_byte 10) self.old.held result }
        ensures within { IsWithin self.old }
    {
        let from = self.start + self.searched;
        match memchr(b'\n', &self.bytes[from..]) {
            Some(at) => Some(self.searched + at),
            None => {
                self.searched = self.bytes.len() - self.start;
                None
            },
        }
    }

    // Whether a read met the end of the file.
    fn is_at_end(&self) -> bool
        ensures { result ≡ self.now.at_end }
    {
        self.at_end
    }

    // How many bytes are held.
    fn held_len(&self) -> usize
        ensures { result ≡ length self.now.held }
    {
        self.bytes.len() - self.start
    }

    // How many bytes may be asked for, where none of those that are held ends a line.
    fn room(&self) -> usize
        ensures { result ≡ room_behind self.now }
    {
        let held = self.bytes.len() - self.start;
        let of_line = MAX_LINE + 1 - held;
        let of_trace = MAX_TRACE + 1 - (self.before + held);
        PIECE.min(of_line).min(of_trace)
    }

    // Hands out the first bytes that are held, as a line that has `size` bytes with its LF.
    fn hand_out(&mut self, len: usize, size: usize) -> Result<bool, LineEnd>
        requires some { 0 < size }
        requires len { len ≤ size }
        requires size { size ≤ length self.old.held }
        ensures answer { result ≡ (if exceeds len (self.old.before + size)
            then Err LineEnd.TooLong else Ok true) }
        ensures ok { OnOk result (self.new ≡ behind_line self.old len size) }
        ensures err { OnErr result (self.new ≡ self.old) }
        ensures within { IsWithin self.new }
    {
        if len > MAX_LINE || self.before + size > MAX_TRACE {
            return Err(LineEnd::TooLong);
        }
        self.line_start = self.start;
        self.line_len = len;
        self.line_ended = len < size;
        self.start += size;
        self.searched = 0;
        self.before += size;
        Ok(true)
    }

    // Reads the next bytes of the open file, at most `room`, behind those that are held, or meets
    // its end. The last line is let go.
    fn read_more<F: Files>(&mut self, files: &mut F, room: usize) -> Result<(), LineEnd>
        requires open { IsTrue (F.state files.old).is_open }
        requires some { 0 < room }
        requires room { room ≤ room_behind self.old }
        ensures files { ReadsOn is_read_fault result (F.state files.old) (F.state files.new) }
        ensures more { OnOk result
            (HoldsMore self.old self.new (F.state files.old).left (F.state files.new).left) }
        ensures few { ReadWithin (room_behind self.old)
            (F.state files.old).left (F.state files.new).left }
        ensures stays { IsErrOf result LineEnd.ReadFault
            → (self.new ≡ self.old) × ((F.state files.new).left ≡ (F.state files.old).left) }
        ensures before { self.new.before ≡ self.old.before }
        ensures cause { ¬ IsErrOf result LineEnd.TooLong }
        ensures within { IsWithin self.new }
    {
        let mut piece = [0u8; PIECE];
        let Ok(count) = files.read(&mut piece[..room]) else {
            return Err(LineEnd::ReadFault);
        };
        if self.hold(&piece[..count]).is_err() {
            return Err(LineEnd::OutOfMemory);
        }
        self.at_end = count == 0;
        Ok(())
    }

    // Holds these bytes too, behind the others, and lets the last line go.
    fn hold(&mut self, piece: &[u8]) -> Result<(), OutOfMemory>
        requires line { length self.old.held + length piece.now ≤ MAX_LINE + 1 }
        requires trace { self.old.before + (length self.old.held + length piece.now)
            ≤ MAX_TRACE + 1 }
        ensures ok { OnOk result
            (self.new ≡ record self.old { line = no_line; held = self.old.held ++ piece.now }) }
        ensures err { OnErr result (self.new ≡ record self.old { line = no_line }) }
        ensures within { IsWithin self.new }
    {
        move_to_front(&mut self.bytes, self.start);
        self.line_start = 0;
        self.line_len = 0;
        self.line_ended = false;
        self.start = 0;
        self.bytes.extend_from_slice(piece)?;
        Ok(())
    }
}

// Takes the bytes before this place out.
fn move_to_front(bytes: &mut Vec<u8>, start: usize)
    requires { start ≤ length bytes.old.items }
    ensures { bytes.new.items ≡ drop start bytes.old.items }
{
    if start > 0 {
        let left = bytes.len() - start;
        bytes.copy_within(start.., 0);
        bytes.truncate(left);
    }
}
