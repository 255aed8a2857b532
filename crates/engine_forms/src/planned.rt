ghost use Rattle.std.specs.Prelude.{◌≡◌, ◌++◌, ◌∷◌, [], IfOk, IsErr, IsTrue, OnOk, OnErr};
ghost use Rattle.gtm_base.specs.Causes.{one_more};
ghost use Rattle.gtm_base.specs.Engines.{LeavesEngines, address_of, pattern_finds, refused_in};
ghost use Rattle.gtm_base.specs.Memory.{is_among};
ghost use Rattle.engine_forms.specs.Planned.{CountsCall};

use crate::PackEngines;
use gtm_base::{Address, EngineEnd, Engines, OutOfMemory};
use std::alloc::Global;
use std::marker::Model;

/// The crates `regex` and `url`, and some calls that are to be refused.
#[derive(Drop)]
pub struct PlannedEngines {
    pack: PackEngines,
    refusing: Vec<u64>,
    calls: u64,
}

impl Model for PlannedEngines {
    ghost use Rattle.engine_forms.specs.Planned.{Planned};

    ghost Value = { Planned };

    ghost view = { λ engines. record {
      engines = engines.pack;
      refusing = engines.refusing.items;
      calls = engines.calls;
    } };
}

impl PlannedEngines {
    /// Engines that have refused nothing, with no call that is to be refused. Takes no memory.
    pub fn new(alloc: Global) -> PlannedEngines
        ensures { result
            ≡ record { engines = record { count = 0; last = [] }; refusing = []; calls = 0 } }
    {
        PlannedEngines {
            pack: PackEngines::new(alloc),
            refusing: Vec::new(alloc),
            calls: 0,
        }
    }

    /// Lets this call be refused, those of `finds` and `address` counted together from 1. Where
    /// memory is wanting, all stays as it was.
    pub fn refuse_at(&mut self, call: u64) -> Result<(), OutOfMemory>
        ensures ok { OnOk result
            (self.new ≡ record self.old { refusing = self.old.refusing ++ call ∷ [] }) }
        ensures err { OnErr result (self.new ≡ self.old) }
    {
        self.refusing.push(call)?;
        Ok(())
    }

    // Counts a call, and answers whether it is to be refused.
    fn refuses_next(&mut self) -> bool
        ensures state { self.new ≡ record self.old { calls = one_more self.old.calls } }
        ensures refuses { result ≡ is_among self.old.refusing (one_more self.old.calls) }
    {
        self.calls = self.calls.saturating_add(1);
        self.refusing.contains(&self.calls)
    }
}

impl Engines for PlannedEngines {
    ghost state = { λ engines. engines.engines };

    /// Counts the call. Refuses it where it is to be refused, and where `PackEngines` refuses.
    fn finds(&mut self, alloc: Global, pattern: &str, text: &str) -> Result<bool, EngineEnd>
        ensures answer { IfOk result (λ found. found ≡ pattern_finds pattern.now text.now) }
        ensures left { LeavesEngines (refused_in result pattern.now)
            self.old.engines self.new.engines }
        ensures counted { CountsCall self.old self.new }
        ensures refuses { IsTrue (is_among self.old.refusing (one_more self.old.calls))
            → IsErr result }
    {
        if self.refuses_next() {
            return Err(self.pack.refuse(alloc, pattern));
        }
        self.pack.finds(alloc, pattern, text)
    }

    /// Counts the call. Refuses it where it is to be refused, and where `PackEngines` refuses.
    fn address(&mut self, alloc: Global, text: &str) -> Result<Option<Address>, EngineEnd>
        ensures answer { IfOk result (λ address. address ≡ address_of text.now) }
        ensures left { LeavesEngines (refused_in result text.now)
            self.old.engines self.new.engines }
        ensures counted { CountsCall self.old self.new }
        ensures refuses { IsTrue (is_among self.old.refusing (one_more self.old.calls))
            → IsErr result }
    {
        if self.refuses_next() {
            return Err(self.pack.refuse(alloc, text));
        }
        self.pack.address(alloc, text)
    }

    fn refusals(&self) -> u64 {
        self.pack.refusals()
    }

    fn refused(&self) -> &str {
        self.pack.refused()
    }
}
