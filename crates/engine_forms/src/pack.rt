ghost use Rattle.std.specs.Prelude.{◌≡◌, [], IfOk, IsSome, Err};
ghost use Rattle.gtm_base.specs.Engines.{LeavesEngines, address_of, pattern_finds, pattern_of};
ghost use Rattle.gtm_base.specs.Engines.{refused_in};

use crate::found::found;
use crate::parts::read_address;
use gtm_base::{Address, EngineEnd, Engines};
use std::alloc::Global;
use std::marker::Model;

/// The crates `regex` and `url`.
#[derive(Drop)]
pub struct PackEngines {
    refusals: u64,
    refused: String,
}

impl Model for PackEngines {
    ghost use Rattle.std.specs.Prelude.{string_bytes};
    ghost use Rattle.gtm_base.specs.Engines.{EnginesState};

    ghost Value = { EnginesState };

    ghost view = { λ engines. record {
      count = engines.refusals;
      last = string_bytes engines.refused;
    } };
}

impl PackEngines {
    /// Engines that have refused nothing. Takes no memory.
    pub fn new(alloc: Global) -> PackEngines
        ensures { result ≡ record { count = 0; last = [] } }
    {
        PackEngines {
            refusals: 0,
            refused: String::new(alloc),
        }
    }

    // Keeps a copy of the text, and then counts a refusal of it. Where the copy finds no memory,
    // nothing changes.
    pub(crate) fn refuse(&mut self, alloc: Global, text: &str) -> EngineEnd
        ensures { LeavesEngines (refused_in {T = Unit} (Err result) text.now) self.old self.new }
    {
        match String::from_str(alloc, text) {
            Ok(copy) => {
                self.refused = copy;
                self.refusals = self.refusals.saturating_add(1);
                EngineEnd::Refused
            },
            Err(_) => EngineEnd::OutOfMemory,
        }
    }
}

impl Engines for PackEngines {
    ghost state = { λ engines. engines };

    /// Refuses a text that is no pattern, and a pattern that would take more than 10 MiB.
    fn finds(&mut self, alloc: Global, pattern: &str, text: &str) -> Result<bool, EngineEnd>
        ensures answer { IfOk result (λ found. found ≡ pattern_finds pattern.now text.now) }
        ensures pattern { IfOk result (λ _. IsSome (pattern_of pattern.now)) }
        ensures left { LeavesEngines (refused_in result pattern.now) self.old self.new }
    {
        match found(alloc, pattern, text)? {
            Some(found) => Ok(found),
            None => Err(self.refuse(alloc, pattern)),
        }
    }

    /// Refuses a text whose address would be longer than addresses can be.
    fn address(&mut self, alloc: Global, text: &str) -> Result<Option<Address>, EngineEnd>
        ensures answer { IfOk result (λ address. address ≡ address_of text.now) }
        ensures left { LeavesEngines (refused_in result text.now) self.old self.new }
    {
        match read_address(alloc, text)? {
            Some(address) => Ok(address),
            None => Err(self.refuse(alloc, text)),
        }
    }

    fn refusals(&self) -> u64 {
        self.refusals
    }

    fn refused(&self) -> &str {
        self.refused.as_str()
    }
}
