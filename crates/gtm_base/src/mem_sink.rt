ghost use Rattle.std.specs.Prelude.{◌≡◌, ◌++◌, ◌∷◌, [], length, IsTrue, is_err, IsErr, IfOk, OnOk};
ghost use Rattle.std.specs.Prelude.{OnErr};
ghost use Rattle.gtm_base.specs.Causes.{Counts, one_more};
ghost use Rattle.gtm_base.specs.Memory.{is_among};

use crate::{OutOfMemory, Sink, SinkFailed};
use std::alloc::Global;
use std::marker::Model;

/// A sink in memory, which takes whole pieces, and some of whose calls can be made to fail.
#[derive(Drop)]
pub struct MemSink {
    bytes: Vec<u8>,
    failing: Vec<u64>,
    calls: u64,
    faults: u64,
}

impl Model for MemSink {
    ghost use Rattle.gtm_base.specs.Memory.{MemorySink};

    ghost Value = { MemorySink };

    ghost view = { λ sink. record {
      bytes = sink.bytes.items;
      failing = sink.failing.items;
      calls = sink.calls;
      faults = sink.faults;
    } };
}

impl MemSink {
    /// A sink that took nothing, with no call that is to fail. Takes no memory.
    pub fn new(alloc: Global) -> MemSink
        ensures { result ≡ record { bytes = []; failing = []; calls = 0; faults = 0 } }
    {
        MemSink {
            bytes: Vec::new(alloc),
            failing: Vec::new(alloc),
            calls: 0,
            faults: 0,
        }
    }

    /// Lets this call of `write` fail, counted from 1. Where memory is wanting, all stays as it
    /// was.
    pub fn fail_at(&mut self, call: u64) -> Result<(), OutOfMemory>
        ensures ok { OnOk result
            (self.new ≡ record self.old { failing = self.old.failing ++ call ∷ [] }) }
        ensures err { OnErr result (self.new ≡ self.old) }
    {
        self.failing.push(call)?;
        Ok(())
    }

    /// The bytes taken so far. Takes no memory.
    pub fn bytes(&self) -> &[u8]
        ensures { result.now ≡ self.now.bytes }
    {
        self.bytes.as_slice()
    }
}

impl Sink for MemSink {
    ghost use Rattle.gtm_base.specs.Memory.{sink_state};

    ghost state = { sink_state };

    /// Counts the call. Takes the whole piece, and fails only where this call is to fail or memory
    /// is wanting.
    fn write(&mut self, piece: &[u8]) -> Result<usize, SinkFailed>
        ensures count { IfOk result (λ count. count ≡ length piece.now) }
        ensures ok { OnOk result (self.new ≡ record self.old {
          bytes = self.old.bytes ++ piece.now;
          calls = one_more self.old.calls;
        }) }
        ensures err { OnErr result (self.new ≡ record self.old {
          calls = one_more self.old.calls;
          faults = one_more self.old.faults;
        }) }
        ensures counted { Counts (is_err result) self.old.faults self.new.faults }
        ensures fails { IsTrue (is_among self.old.failing (one_more self.old.calls))
            → IsErr result }
    {
        self.calls = self.calls.saturating_add(1);
        let fails = self.failing.contains(&self.calls);
        if fails || self.bytes.extend_from_slice(piece).is_err() {
            self.faults = self.faults.saturating_add(1);
            return Err(SinkFailed);
        }
        Ok(piece.len())
    }

    fn faults(&self) -> u64 {
        self.faults
    }
}
