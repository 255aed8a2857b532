ghost use Rattle.std.specs.Prelude.{◌≡◌, ◌≤◌, ◌<◌, IsTrue, [], IfOk, IfSome, vec_len};
ghost use Rattle.gtm_base.specs.FileFault.{is_file_fault};
ghost use Rattle.gtm_base.specs.Outside.{ReadsOn, ReadWithin, followed_by};

use crate::{FileFailed, Files, OutOfMemory};
use std::alloc::Global;

const PIECE: usize = 16_384;

/// Why a file was not read to its end.
#[derive(Clone, Copy, Debug, PartialEq, Eq)]
pub enum ReadEnd {
    OutOfMemory,
    FileFailed,
}

/// Reads the rest of the open file, or its next `limit` bytes where there are more. The file stays
/// open.
///
/// `FileFailed` comes only with a rise of the files' count. After an error some bytes may have been
/// read, never more than `limit`.
pub fn read_whole<F: Files>(alloc: Global, files: &mut F, limit: u64) -> Result<Vec<u8>, ReadEnd>
    requires { IsTrue (F.state files.old).is_open }
    ensures files { ReadsOn is_file_fault result (F.state files.old) (F.state files.new) }
    ensures bytes { IfOk result (λ bytes.
        (F.state files.old).left ≡ followed_by bytes.items (F.state files.new).left) }
    ensures end { IfOk result (λ bytes.
        vec_len bytes < limit → IfSome (F.state files.new).left (λ left. left ≡ [])) }
    ensures short { IfOk result (λ bytes. vec_len bytes ≤ limit) }
    ensures within { ReadWithin limit (F.state files.old).left (F.state files.new).left }
{
    let mut bytes = Vec::new(alloc);
    let mut piece = [0u8; PIECE];
    while (bytes.len() as u64) < limit {
        let room = limit - bytes.len() as u64;
        let most = room.min(PIECE as u64) as usize;
        match files.read(&mut piece[..most]) {
            Err(FileFailed) => return Err(ReadEnd::FileFailed),
            Ok(0) => break,
            Ok(count) => if bytes.extend_from_slice(&piece[..count]).is_err() {
                return Err(ReadEnd::OutOfMemory);
            },
        }
    }
    Ok(bytes)
}
