ghost use Rattle.std.specs.Prelude.{◌≡◌, ◌≤◌, ◌<◌, ◌+◌, ℕ, List, [], None, Some, Ok, Err, IsTrue};
ghost use Rattle.std.specs.Prelude.{IsSome, IfOk, IfErr, IfSome, IfNone, OnOk, IsErrOf};
ghost use Rattle.std.specs.Prelude.{if◌then◌else◌};
ghost use Rattle.std.specs.Option.{ForSome};
ghost use Rattle.gtm_base.specs.Outside.{ReadsOn};
ghost use Rattle.trace_forms.specs.Lines.{line_of};
ghost use Rattle.trace_forms.specs.Steps.{Step};
ghost use Rattle.trace_forms.specs.Views.{step_of};
ghost use Rattle.trace_lines.specs.declared.lines.TheConstants.{MAX_TRACE};
ghost use Rattle.trace_reader.specs.Progress.{Judged, Moves, Tells, at_start, before_of};
ghost use Rattle.trace_reader.specs.Progress.{fault_after, is_at_end, is_fault, trace_left};
ghost use Rattle.trace_reader.specs.Progress.{HoldsNoLine};
ghost use Rattle.trace_reader.specs.Standing.{Leads, StandsAt};
ghost use Rattle.trace_reader.specs.Trace.{built, built_reading, trace_of};

use gtm_base::{Files, OutOfMemory};
use json::Scratch;
use std::alloc::Global;
use std::marker::Model;
use trace_forms::{LineRead, TraceStep, read_line};
use trace_lines::{LineEnd, Lines};

/// Why no step was handed out.
#[derive(Clone, Copy, Debug, PartialEq, Eq)]
pub enum TraceEnd {
    /// Memory was wanting.
    OutOfMemory,
    /// A read of the file failed.
    ReadFault,
    /// The line with this number, from 1, is bad: this is the least rule that it breaks. Rule 1: it
    /// has over `trace_lines::MAX_LINE` bytes without its LF, or does not end within the first
    /// `trace_lines::MAX_TRACE` bytes of the trace; 2 to 7 are those of `trace_forms`; 8: a step
    /// that is not run yet.
    Refused { line: u64, rule: u8 },
}

/// The steps of an open trace, read as they are asked for.
#[derive(Drop)]
pub struct Reader {
    alloc: Global,
    lines: Lines,
    // Memory that is lent to the reading of one line after another.
    scratch: Scratch,
    // How many lines were handed out.
    count: u64,
    ended: Option<TraceEnd>,
}

impl Model for Reader {
    ghost use Rattle.std.specs.Prelude.{◌≤◌};
    ghost use Rattle.trace_reader.specs.Progress.{Progress};

    ghost Value = { Progress };

    ghost view = { λ reader. record {
      position = reader.lines;
      lines = reader.count;
      ended = reader.ended;
    } };

    ghost invariant = { λ reader. reader.count ≤ reader.lines.before };
}

impl Reader {
    /// At the start of a trace. Takes no memory.
    pub fn new(alloc: Global) -> Reader
        ensures value { result ≡ at_start }
        ensures whole { (bytes : List ℕ) → trace_left result (Some bytes) ≡ Some (trace_of bytes) }
        ensures start { (bytes : List ℕ) → StandsAt bytes [] result bytes }
    {
        Reader {
            alloc,
            lines: Lines::new(alloc),
            scratch: Scratch::new(alloc),
            count: 0,
            ended: None,
        }
    }

    /// The next step of the open trace, or `None` at its end.
    ///
    /// `Refused` comes exactly at the first bad line, when the steps before it were handed out.
    /// `ReadFault` comes only with a rise of the files' count, and when the steps of all lines
    /// whose LF was read were handed out. Once a read met the end of the file, nothing is read.
    /// After an error each later call answers the same and reads nothing.
    pub fn next_step<F: Files>(&mut self, files: &mut F) -> Result<Option<TraceStep>, TraceEnd>
        requires { IsTrue (F.state files.old).is_open }
        ensures files { ReadsOn (fault_after self.old.ended) result
            (F.state files.old) (F.state files.new) }
        ensures again { IfSome self.old.ended
            (λ end. (result ≡ Err end) × (self.new ≡ self.old) × (files.new ≡ files.old)) }
        ensures told { IfNone self.old.ended (Tells result
            (trace_left self.old (F.state files.old).left)
            (trace_left self.new (F.state files.new).left)) }
        ensures stands { (bytes : List ℕ) (done : List Step)
            → ForSome (F.state files.old).left (StandsAt bytes done self.old)
            → ForSome (F.state files.new).left (Leads result bytes done self.new) }
        ensures unread { IfNone self.old.ended
            (IsErrOf result TraceEnd.ReadFault → HoldsNoLine self.new) }
        ensures ended { IfErr result (λ end. self.new.ended ≡ Some end) }
        ensures goes_on { OnOk result (self.new.ended ≡ None) }
        ensures end { result ≡ Ok None → IsTrue (is_at_end self.new) }
        ensures behind_end { IfNone self.old.ended (IsTrue (is_at_end self.old)
            → (files.new ≡ files.old) × ¬ IsErrOf result TraceEnd.ReadFault) }
        ensures onward { IfOk result
            (λ step. IsSome step → before_of self.old < before_of self.new) }
        ensures within { OnOk result (before_of self.new ≤ MAX_TRACE) }
    {
        if let Some(end) = self.ended {
            return Err(end);
        }
        let answer = self.read_on(files);
        if let Err(end) = &answer {
            self.ended = Some(*end);
        }
        answer
    }

    // The next step of a trace that has not ended.
    fn read_on<F: Files>(&mut self, files: &mut F) -> Result<Option<TraceStep>, TraceEnd>
        requires { IsTrue (F.state files.old).is_open }
        ensures files { ReadsOn is_fault result (F.state files.old) (F.state files.new) }
        ensures told { Tells result
            (trace_left self.old (F.state files.old).left)
            (trace_left self.new (F.state files.new).left) }
        ensures stands { (bytes : List ℕ) (done : List Step)
            → ForSome (F.state files.old).left (StandsAt bytes done self.old)
            → ForSome (F.state files.new).left (Leads result bytes done self.new) }
        ensures unread { IsErrOf result TraceEnd.ReadFault → HoldsNoLine self.new }
        ensures ended { self.new.ended ≡ self.old.ended }
        ensures end { result ≡ Ok None → IsTrue (is_at_end self.new) }
        ensures behind_end { IsTrue (is_at_end self.old)
            → (files.new ≡ files.old) × ¬ IsErrOf result TraceEnd.ReadFault }
        ensures onward { IfOk result
            (λ step. IsSome step → before_of self.old < before_of self.new) }
        ensures within { OnOk result (before_of self.new ≤ MAX_TRACE) }
    {
        loop {
            match self.next_line(files) {
                Ok(true) => {},
                Ok(false) => return Ok(None),
                Err(end) => return Err(end),
            }
            match self.step() {
                Ok(None) => {},
                Ok(Some(step)) => return Ok(Some(step)),
                Err(end) => return Err(end),
            }
        }
    }

    // Reads the next line, or answers false at the end of the trace.
    fn next_line<F: Files>(&mut self, files: &mut F) -> Result<bool, TraceEnd>
        requires { IsTrue (F.state files.old).is_open }
        ensures files { ReadsOn is_fault result (F.state files.old) (F.state files.new) }
        ensures moves { Moves result self.old self.new
            (F.state files.old).left (F.state files.new).left }
        ensures lines { IfOk result
            (λ more. self.new.lines ≡ (if more then self.old.lines + 1 else self.old.lines)) }
        ensures kept { IsErrOf result TraceEnd.ReadFault → self.new.lines ≡ self.old.lines }
        ensures unread { IsErrOf result TraceEnd.ReadFault → HoldsNoLine self.new }
        ensures within { before_of self.new ≤ MAX_TRACE }
        ensures ended { self.new.ended ≡ self.old.ended }
        ensures behind_end { IsTrue (is_at_end self.old) → files.new ≡ files.old }
    {
        match self.lines.next_line(files) {
            Ok(true) => {
                self.count += 1;
                Ok(true)
            },
            Ok(false) => Ok(false),
            Err(LineEnd::OutOfMemory) => Err(TraceEnd::OutOfMemory),
            Err(LineEnd::ReadFault) => Err(TraceEnd::ReadFault),
            Err(LineEnd::TooLong) => Err(TraceEnd::Refused {
                line: self.count + 1,
                rule: 1,
            }),
        }
    }

    // What the line that was read last asks for, or none where it is blank.
    fn step(&mut self) -> Result<Option<TraceStep>, TraceEnd>
        ensures judged { Judged result self.old.lines
            (built_reading (line_of self.old.position.line.text)) }
        ensures kept { self.new ≡ self.old }
    {
        match read_line(self.alloc, &mut self.scratch, self.lines.line()) {
            Err(OutOfMemory) => Err(TraceEnd::OutOfMemory),
            Ok(LineRead::Blank) => Ok(None),
            Ok(LineRead::Bad(rule)) => Err(self.refused(rule)),
            Ok(LineRead::Step(step)) => self.built(step),
        }
    }

    // The step, where it is run already: so far pushes and facts of the page are.
    fn built(&self, step: TraceStep) -> Result<Option<TraceStep>, TraceEnd>
        ensures { Judged result self.now.lines (built (step_of step)) }
    {
        match step {
            TraceStep::Push(_) | TraceStep::Fact(_) => Ok(Some(step)),
            TraceStep::Args(_) | TraceStep::Load { .. } | TraceStep::Vendor { .. } => {
                Err(self.refused(8))
            },
        }
    }

    // The line that was read last breaks this rule.
    fn refused(&self, rule: u8) -> TraceEnd
        ensures { result ≡ TraceEnd.Refused self.now.lines rule }
    {
        TraceEnd::Refused {
            line: self.count,
            rule,
        }
    }
}
