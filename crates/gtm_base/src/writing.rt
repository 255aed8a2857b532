ghost use Rattle.gtm_base.specs.Causes.{every};
ghost use Rattle.gtm_base.specs.Outside.{Writes};

use crate::{Sink, SinkFailed};

/// Writes a whole piece. Takes no memory.
///
/// Fails only with a rise of the sink's count; then a front of the piece was taken.
pub fn put<S: Sink>(out: &mut S, piece: &[u8]) -> Result<(), SinkFailed>
    ensures { Writes every result (S.state out.old) (S.state out.new) piece.now }
{
    let mut done = 0usize;
    while done < piece.len() {
        done += out.write(&piece[done..])?;
    }
    Ok(())
}
