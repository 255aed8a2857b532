ghost use Rattle.std.specs.Prelude.{◌≡◌, Err};
ghost use Rattle.gtm_cli.specs.Failures.{status_of_export, status_of_run};

use gtm_base::{OutOfMemory, Status, Text};
use replay_engine::RunEnd;
use trace_reader::TraceEnd;

/// Why an export was not loaded.
#[derive(Debug, Drop)]
pub enum ExportFailure {
    /// Its file could not be opened or read.
    Unread,
    /// It breaks this rule, first at this path, a JSON pointer.
    Refused { rule: u8, path: Text },
    /// Memory was wanting.
    OutOfMemory,
}

impl From<OutOfMemory> for ExportFailure {
    ghost use Rattle.std.specs.Prelude.{◌≡◌};
    ghost use Rattle.gtm_cli.specs.declared.failures.ExportFailure.TheVariants.{OutOfMemory};

    ghost from_gives = { λ _ failure. failure ≡ OutOfMemory };

    fn from(_: OutOfMemory) -> Self {
        ExportFailure::OutOfMemory
    }
}

impl ExportFailure {
    /// The status that tells it.
    pub fn status(self) -> Status
        ensures { result ≡ status_of_export self }
    {
        match self {
            ExportFailure::Unread => Status::FileFault,
            ExportFailure::Refused { rule, path } => Status::ExportRefused { rule, path },
            ExportFailure::OutOfMemory => Status::OutOfMemory,
        }
    }
}

/// Why the run of a trace ended before its closing lines.
#[derive(Debug, Drop, PartialEq, Eq)]
pub enum RunFailure {
    /// The file of the trace could not be opened or read.
    Unread,
    /// This line of the trace is the first bad one, and breaks this rule.
    Refused { line: u64, rule: u8 },
    /// Engines refused this text.
    EngineRefused { text: Text },
    /// This step needs one job more than it may have.
    JobLimit { step: u64 },
    /// The run could not be written.
    Unwritten,
    /// Memory was wanting.
    OutOfMemory,
}

impl From<OutOfMemory> for RunFailure {
    ghost use Rattle.std.specs.Prelude.{◌≡◌};
    ghost use Rattle.gtm_cli.specs.declared.failures.RunFailure.TheVariants.{OutOfMemory};

    ghost from_gives = { λ _ failure. failure ≡ OutOfMemory };

    fn from(_: OutOfMemory) -> Self {
        RunFailure::OutOfMemory
    }
}

impl From<RunEnd> for RunFailure {
    ghost use Rattle.std.specs.Prelude.{◌≡◌};
    ghost use Rattle.gtm_cli.specs.Failures.{failure_of_run};

    ghost from_gives = { λ end failure. failure ≡ failure_of_run end };

    fn from(end: RunEnd) -> Self {
        match end {
            RunEnd::OutOfMemory => RunFailure::OutOfMemory,
            RunEnd::EngineRefused { text } => RunFailure::EngineRefused { text },
            RunEnd::JobLimit { step } => RunFailure::JobLimit { step },
            RunEnd::SinkFault => RunFailure::Unwritten,
        }
    }
}

impl From<TraceEnd> for RunFailure {
    ghost use Rattle.std.specs.Prelude.{◌≡◌};
    ghost use Rattle.gtm_cli.specs.Failures.{failure_of_trace};

    ghost from_gives = { λ end failure. failure ≡ failure_of_trace end };

    fn from(end: TraceEnd) -> Self {
        match end {
            TraceEnd::OutOfMemory => RunFailure::OutOfMemory,
            TraceEnd::ReadFault => RunFailure::Unread,
            TraceEnd::Refused { line, rule } => RunFailure::Refused { line, rule },
        }
    }
}

/// The status that tells how a trace was run.
pub fn status_of_run(ending: Result<(), RunFailure>) -> Status
    ensures { result ≡ status_of_run ending }
{
    match ending {
        Ok(()) => Status::Done,
        Err(RunFailure::Unread) => Status::FileFault,
        Err(RunFailure::Refused { line, rule }) => Status::TraceRefused { line, rule },
        Err(RunFailure::EngineRefused { text }) => Status::EngineRefused { text },
        Err(RunFailure::JobLimit { step }) => Status::JobLimit { step },
        Err(RunFailure::Unwritten) => Status::SinkFault,
        Err(RunFailure::OutOfMemory) => Status::OutOfMemory,
    }
}
