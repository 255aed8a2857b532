ghost use Rattle.std.specs.Prelude.{◌≡◌};

use gtm_base::{OutOfMemory, Text};

/// An export has at most so many bytes.
pub const MAX_EXPORT: usize = 8_388_608;

/// Why nothing was read of an export.
#[derive(Debug, Drop)]
pub enum ExportEnd {
    /// Memory was wanting.
    OutOfMemory,
    /// The export breaks this rule, first at this path, a JSON pointer. It breaks no rule of a
    /// smaller number.
    Refused { rule: u8, path: Text },
}

impl From<OutOfMemory> for ExportEnd {
    ghost use Rattle.export_reader.specs.FirstBroken.{IsOutOfMemory};

    ghost from_gives = { λ _ end. IsOutOfMemory end };

    fn from(_: OutOfMemory) -> ExportEnd {
        ExportEnd::OutOfMemory
    }
}
