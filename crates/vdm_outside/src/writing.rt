// Writing all of some bytes.

ghost use Rattle.vdm_outside.specs.Writing.{WritesWhole};

use crate::failed::Failed;
use crate::sink::Sink;

/// Writes all the bytes, in as many pieces as the sink makes of them.
///
/// # Errors
///
/// `Failed` exactly where the sink's count of faults rose. The sink has taken some of the bytes
/// from the front then, and not all.
pub fn write_whole<K: Sink>(sink: &mut K, bytes: &[u8]) -> Result<(), Failed>
    ensures { WritesWhole K.held K.faults sink.old sink.new bytes.now result }
{
    let mut written = 0;
    while written < bytes.len() {
        written += sink.write(&bytes[written..])?;
    }
    Ok(())
}
