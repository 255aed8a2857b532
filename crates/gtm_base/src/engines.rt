ghost use Rattle.std.specs.Prelude.{◌≡◌, IfOk};
ghost use Rattle.gtm_base.specs.Engines.{EnginesState, LeavesEngines, address_of, pattern_finds};
ghost use Rattle.gtm_base.specs.Engines.{refused_in};

use crate::{Address, OutOfMemory};
use std::alloc::Global;

/// Why engines gave no answer.
#[derive(Clone, Copy, Debug, PartialEq, Eq)]
pub enum EngineEnd {
    OutOfMemory,
    /// They refused the pattern or the address that they were asked with.
    Refused,
}

impl From<OutOfMemory> for EngineEnd {
    ghost use Rattle.std.specs.Prelude.{◌≡◌};
    ghost use Rattle.gtm_base.specs.declared.engines.EngineEnd.{EngineEnd};
    ghost use Rattle.gtm_base.specs.declared.engines.EngineEnd.TheVariants.{OutOfMemory};

    ghost from_gives = { λ _ end. end ≡ OutOfMemory };

    fn from(_: OutOfMemory) -> EngineEnd {
        EngineEnd::OutOfMemory
    }
}

/// What answers for patterns and addresses.
///
/// Engines may refuse what they are asked, and count that. They go on after each error.
pub trait Engines {
    /// How often they have refused, and the text that they refused last.
    ghost state: { Self → EnginesState };

    /// Whether the pattern has a match anywhere in the text.
    ///
    /// `Refused` comes only with a rise of the count, and then `refused` tells the pattern. Every
    /// other answer changes nothing.
    fn finds(&mut self, alloc: Global, pattern: &str, text: &str) -> Result<bool, EngineEnd>
        ensures answer { IfOk result (λ found. found ≡ pattern_finds pattern.now text.now) }
        ensures left { LeavesEngines (refused_in result pattern.now)
            (state self.old) (state self.new) };

    /// The parts of the address that the text is, and `None` exactly where it is malformed.
    ///
    /// `Refused` comes only with a rise of the count, and then `refused` tells the text. Every
    /// other answer changes nothing.
    fn address(&mut self, alloc: Global, text: &str) -> Result<Option<Address>, EngineEnd>
        ensures answer { IfOk result (λ address. address ≡ address_of text.now) }
        ensures left { LeavesEngines (refused_in result text.now)
            (state self.old) (state self.new) };

    /// How often a call has refused, at most the greatest `u64`. The count never falls. Takes no
    /// memory.
    fn refusals(&self) -> u64
        ensures { result ≡ (state self.now).count };

    /// The pattern or the address that was refused last, and the empty text before one. Takes no
    /// memory.
    fn refused(&self) -> &str
        ensures { result.now ≡ (state self.now).last };
}
