ghost use Rattle.std.specs.Prelude.{◌≡◌};
ghost use Rattle.gtm_base.specs.StatusCode.{code_of};

use crate::Text;

/// How a run of the program ends.
#[derive(Debug, Drop)]
pub enum Status {
    /// The whole text was written.
    Done,
    /// The words are no command.
    Usage,
    /// A file could not be opened or read.
    FileFault,
    /// The export breaks this rule, first at this path (a JSON pointer).
    ExportRefused { rule: u8, path: Text },
    /// The trace's first bad line, counted from 1, and the least rule that it breaks.
    TraceRefused { line: u64, rule: u8 },
    /// Engines refused this text: a pattern, or the address of a page.
    EngineRefused { text: Text },
    /// The step with this number, from 1, needs one job more than a step may have.
    JobLimit { step: u64 },
    /// The text could not be written.
    SinkFault,
    /// Memory was wanted and was not there.
    OutOfMemory,
}

impl Status {
    /// The exit status of the process. Takes no memory.
    pub fn code(&self) -> u8
        ensures { result ≡ code_of self.now }
    {
        match self {
            Status::Done => 0,
            Status::Usage => 2,
            Status::FileFault => 3,
            Status::ExportRefused { .. } => 4,
            Status::TraceRefused { .. } => 5,
            Status::EngineRefused { .. } => 6,
            Status::JobLimit { .. } => 7,
            Status::SinkFault => 8,
            Status::OutOfMemory => 9,
        }
    }
}
