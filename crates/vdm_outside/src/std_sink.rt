// A sink over a writer of std.

ghost use Rattle.std.specs.Prelude.{◌≡◌};
ghost use Rattle.vdm_outside.specs.StdSink.{writer_of, faults_of};

use crate::failed::Failed;
use crate::sink::Sink;
use std::io::Write;

/// A writer as a sink. Each error of the writer, an interruption too, is a fault, and so is a write
/// that takes nothing of a piece that has bytes. It doesn't flush: give it a writer without a buffer.
#[derive(Drop)]
pub struct StdSink<W> {
    writer: W,
    faults: u64,
}

impl<W: Write> StdSink<W> {
    /// A sink into the writer.
    pub fn new(writer: W) -> StdSink<W>
        ensures writer { writer_of result ≡ writer }
        ensures faults { faults_of result ≡ 0 }
    {
        StdSink { writer, faults: 0 }
    }
}

impl<W: Write> Sink for StdSink<W> {
    ghost held = { λ s. W.contents (writer_of s) };

    ghost faults = { faults_of };

    fn write(&mut self, piece: &[u8]) -> Result<usize, Failed> {
        match self.writer.write(piece) {
            Ok(count) if count > 0 || piece.is_empty() => Ok(count),
            _ => {
                self.faults = self.faults.saturating_add(1);
                Err(Failed)
            }
        }
    }
}
