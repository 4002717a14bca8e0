// A source over a reader of std.

ghost use Rattle.std.specs.Prelude.{◌≡◌};
ghost use Rattle.std.specs.Io.{ReadsAtMost};
ghost use Rattle.std.specs.Io.KnownBytes.{ReadConsumes};
ghost use Rattle.vdm_outside.specs.Counts.{raised, HasCause};
ghost use Rattle.vdm_outside.specs.StdSource.{reader_of, faults_of, reads_of};

use crate::failed::Failed;
use crate::source::Source;
use std::io::Read;

/// A reader as a source. Each error of the reader, an interruption too, is a fault.
#[derive(Drop)]
pub struct StdSource<R> {
    reader: R,
    faults: u64,
    reads: u64,
}

impl<R: Read> StdSource<R> {
    /// A source of what the reader has left.
    pub fn new(reader: R) -> StdSource<R>
        ensures reader { reader_of result ≡ reader }
        ensures faults { faults_of result ≡ 0 }
        ensures reads { reads_of result ≡ 0 }
    {
        StdSource {
            reader,
            faults: 0,
            reads: 0,
        }
    }
}

impl<R: Read> Source for StdSource<R> {
    ghost left = { λ s. R.remaining (reader_of s) };

    ghost faults = { faults_of };

    ghost reads = { reads_of };

    fn read(&mut self, buf: &mut [u8]) -> Result<usize, Failed> {
        self.reads = self.reads.saturating_add(1);
        match self.reader.read(buf) {
            Ok(count) => Ok(count),
            Err(_) => {
                self.faults = self.faults.saturating_add(1);
                Err(Failed)
            }
        }
    }
}
