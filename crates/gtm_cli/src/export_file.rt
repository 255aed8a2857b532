ghost use Rattle.std.specs.Prelude.{◌≡◌, ◌≤◌, ◌+◌, ℕ, List, Some, IfOk, IsTrue};
ghost use Rattle.std.specs.Str.{chars};
ghost use Rattle.export_model.specs.Sound.{Sound};
ghost use Rattle.gtm_base.specs.FileFault.{is_file_fault};
ghost use Rattle.gtm_base.specs.Outside.{Holds, ReadWithin};
ghost use Rattle.gtm_cli.specs.Failures.{is_export_fault};
ghost use Rattle.gtm_cli.specs.Opening.{OpensFile};
ghost use Rattle.gtm_cli.specs.Running.{EnoughOf, LoadAnswer};

use crate::failures::ExportFailure;
use export_reader::{ExportEnd, Loaded, MAX_EXPORT, read_export};
use gtm_base::{Files, ReadEnd, read_whole};
use std::alloc::Global;

/// Opens an export and reads it, to its end or to the first byte that makes it too large, and loads
/// its container.
pub fn load<F: Files>(alloc: Global, files: &mut F, name: &str) -> Result<Loaded, ExportFailure>
    ensures files { OpensFile is_export_fault result
        (F.state files.old) (F.state files.new) (chars name.now) }
    ensures answer { (bytes : List ℕ) → Holds (F.state files.old).held (chars name.now) bytes
        → LoadAnswer bytes result }
    ensures within { (bytes : List ℕ) → Holds (F.state files.old).held (chars name.now) bytes
        → IsTrue (F.state files.new).is_open
        → ReadWithin (MAX_EXPORT + 1) (Some bytes) (F.state files.new).left }
    ensures sound { IfOk result (λ loaded. Sound loaded.container) }
{
    let bytes = match export_bytes(alloc, files, name) {
        Ok(bytes) => bytes,
        Err(ReadEnd::OutOfMemory) => return Err(ExportFailure::OutOfMemory),
        Err(ReadEnd::FileFailed) => return Err(ExportFailure::Unread),
    };
    match read_export(alloc, bytes.as_slice()) {
        Ok(loaded) => Ok(loaded),
        Err(ExportEnd::Refused { rule, path }) => Err(ExportFailure::Refused { rule, path }),
        Err(ExportEnd::OutOfMemory) => Err(ExportFailure::OutOfMemory),
    }
}

// The bytes of an export, as far as its rules need them.
fn export_bytes<F: Files>(alloc: Global, files: &mut F, name: &str) -> Result<Vec<u8>, ReadEnd>
    ensures files { OpensFile is_file_fault result
        (F.state files.old) (F.state files.new) (chars name.now) }
    ensures bytes { IfOk result (λ read. (bytes : List ℕ)
        → Holds (F.state files.old).held (chars name.now) bytes → EnoughOf bytes read.items) }
    ensures within { (bytes : List ℕ) → Holds (F.state files.old).held (chars name.now) bytes
        → IsTrue (F.state files.new).is_open
        → ReadWithin (MAX_EXPORT + 1) (Some bytes) (F.state files.new).left }
{
    if files.open(name).is_err() {
        return Err(ReadEnd::FileFailed);
    }
    read_whole(alloc, files, MAX_EXPORT as u64 + 1)
}
