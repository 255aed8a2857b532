ghost use Rattle.std.specs.Prelude.{◌≡◌, ◌⊎◌};
ghost use Rattle.replay_engine.specs.RunFault.{IsAgain};

use gtm_base::{OutOfMemory, Text};
use run_log::LineEnd;
use std::alloc::Global;

/// Why a run ended before its closing lines.
#[derive(Debug, Drop, PartialEq, Eq)]
pub enum RunEnd {
    /// Memory was wanting.
    OutOfMemory,
    /// The engines refused this text, an address of a page.
    EngineRefused { text: Text },
    /// The step with this number, from 1, needs one job more than `MAX_JOBS`. The lines of those
    /// that it may have were written.
    JobLimit { step: u64 },
    /// The sink failed. It took a front of the text.
    SinkFault,
}

impl RunEnd {
    /// The same end, or `OutOfMemory` where there is no memory for its text.
    pub(crate) fn again(&self, alloc: Global) -> RunEnd
        ensures { IsAgain self.now result }
    {
        match self {
            RunEnd::OutOfMemory => RunEnd::OutOfMemory,
            RunEnd::EngineRefused { text } => refused(alloc, text),
            RunEnd::JobLimit { step } => RunEnd::JobLimit { step: *step },
            RunEnd::SinkFault => RunEnd::SinkFault,
        }
    }
}

/// The end that the engines refused a text, or `OutOfMemory` where there is no memory for it.
pub(crate) fn refused(alloc: Global, text: &Text) -> RunEnd
    ensures { (result ≡ RunEnd.EngineRefused text.now) ⊎ (result ≡ RunEnd.OutOfMemory) }
{
    match text.copy(alloc) {
        Ok(text) => RunEnd::EngineRefused { text },
        Err(OutOfMemory) => RunEnd::OutOfMemory,
    }
}

impl From<OutOfMemory> for RunEnd {
    ghost use Rattle.std.specs.Prelude.{◌≡◌};
    ghost use Rattle.replay_engine.specs.declared.run_end.RunEnd.TheVariants.{OutOfMemory};

    ghost from_gives = { λ _ end. end ≡ OutOfMemory };

    fn from(_: OutOfMemory) -> Self {
        RunEnd::OutOfMemory
    }
}

impl From<LineEnd> for RunEnd {
    ghost use Rattle.std.specs.Prelude.{◌≡◌};
    ghost use Rattle.replay_engine.specs.RunFault.{run_end_of};

    ghost from_gives = { λ line end. end ≡ run_end_of line };

    fn from(line: LineEnd) -> Self {
        match line {
            LineEnd::OutOfMemory => RunEnd::OutOfMemory,
            LineEnd::SinkFault => RunEnd::SinkFault,
        }
    }
}
