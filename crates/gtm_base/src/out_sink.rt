ghost use Rattle.std.specs.Prelude.{◌≡◌, [], IfOk};

use crate::{OutOfMemory, Sink, SinkFailed};
use std::alloc::Global;
use std::io::{self, BufWriter, Stderr, Stdout, Write};
use std::marker::Model;

// A sink keeps at most so many bytes before it hands them on.
const MAX_KEPT: usize = 65_536;

/// One of the two streams that a program writes.
#[derive(Drop)]
pub enum Stream {
    Out(Stdout),
    Err(Stderr),
}

impl Write for Stream {
    fn write(&mut self, piece: &[u8]) -> io::Result<usize> {
        match self {
            Stream::Out(stream) => stream.write(piece),
            Stream::Err(stream) => stream.write(piece),
        }
    }

    fn flush(&mut self) -> io::Result<()> {
        match self {
            Stream::Out(stream) => stream.flush(),
            Stream::Err(stream) => stream.flush(),
        }
    }
}

/// A stream of the system, or another writer. It keeps up to 64 KiB of what it takes, and hands them
/// on when they are full and at `finish`. As a `Sink` it tells nothing of what it took. Beyond that,
/// the bytes that it took are those that the writer took and those that are kept, where the writer's
/// type tells them.
#[derive(Drop)]
pub struct OutSink<W: Write + Drop = Stream> {
    stream: BufWriter<W>,
    faults: u64,
}

impl<W: Write + Drop> Model for OutSink<W> {
    ghost use Rattle.std.specs.Io.Buffered.{writer_buffer, writer_inner};
    ghost use Rattle.gtm_base.specs.Disk.{StreamState};

    ghost Value = { StreamState };

    ghost view = { λ sink. record {
      written = W.contents (writer_inner sink.stream);
      kept = writer_buffer sink.stream;
      faults = sink.faults;
    } };
}

impl OutSink<Stream> {
    /// Standard output. Fails where memory is wanting for the bytes that are kept.
    pub fn stdout(alloc: Global, stream: Stdout) -> Result<OutSink, OutOfMemory>
        ensures { IfOk result (λ sink. sink.faults ≡ 0) }
    {
        OutSink::over(alloc, Stream::Out(stream))
    }

    /// Standard error. Fails where memory is wanting for the bytes that are kept.
    pub fn stderr(alloc: Global, stream: Stderr) -> Result<OutSink, OutOfMemory>
        ensures { IfOk result (λ sink. sink.faults ≡ 0) }
    {
        OutSink::over(alloc, Stream::Err(stream))
    }
}

impl<W: Write + Drop> OutSink<W> {
    ghost use Rattle.std.specs.Prelude.{◌≡◌, OnOk, is_err};
    ghost use Rattle.std.specs.Io.KnownBytes.{Keeps};
    ghost use Rattle.gtm_base.specs.Causes.{Counts};
    ghost use Rattle.gtm_base.specs.Disk.{taken_by};

    /// A sink over a writer. Fails where memory is wanting for the bytes that are kept.
    pub fn over(alloc: Global, stream: W) -> Result<OutSink<W>, OutOfMemory>
        ensures { IfOk result
            (λ sink. sink ≡ record { written = W.contents stream; kept = []; faults = 0 }) }
    {
        match BufWriter::with_capacity(alloc, MAX_KEPT, stream) {
            Ok(stream) => Ok(OutSink { stream, faults: 0 }),
            Err(_) => Err(OutOfMemory),
        }
    }

    /// Hands on what is kept. After an error, the bytes that the writer did not take are kept.
    pub fn finish(&mut self) -> Result<(), SinkFailed>
        ensures taken { Keeps (taken_by self.old) (taken_by self.new) }
        ensures whole { OnOk result (self.new.kept ≡ []) }
        ensures counted { Counts (is_err result) self.old.faults self.new.faults }
    {
        match self.stream.flush() {
            Ok(()) => Ok(()),
            Err(_) => {
                self.faults = self.faults.saturating_add(1);
                Err(SinkFailed)
            },
        }
    }
}

impl<W: Write + Drop> Sink for OutSink<W> {
    ghost use Rattle.std.specs.Prelude.{◌≡◌, ◌<◌, ◌≤◌, IfOk, is_err, length};
    ghost use Rattle.std.specs.Io.KnownBytes.{WriteAppends};
    ghost use Rattle.gtm_base.specs.Causes.{Counts};
    ghost use Rattle.gtm_base.specs.Disk.{stream_sink_state, taken_by};

    ghost state = { stream_sink_state };

    /// Fails where the writer fails or takes nothing.
    fn write(&mut self, piece: &[u8]) -> Result<usize, SinkFailed>
        requires { 0 < length piece.now }
        ensures count { IfOk result (λ count. (0 < count) × (count ≤ length piece.now)) }
        ensures taken { WriteAppends (taken_by self.old) (taken_by self.new) result piece.now }
        ensures counted { Counts (is_err result) self.old.faults self.new.faults }
    {
        match self.stream.write(piece) {
            Ok(count) if count > 0 => Ok(count),
            _ => {
                self.faults = self.faults.saturating_add(1);
                Err(SinkFailed)
            },
        }
    }

    fn faults(&self) -> u64 {
        self.faults
    }
}
