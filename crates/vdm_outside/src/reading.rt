// Reading to the end, or to one byte past a limit.

ghost use Rattle.vdm_outside.specs.Reading.{ReadsLimited};

use crate::failed::Failed;
use crate::source::Source;
use std::alloc::Global;
use vdm_kinds::Halt;

const PIECE: usize = 4096;

/// Reads all that the source has left, but no byte after the first one past `limit`. So the source
/// is at its end where at most `limit` bytes come, and longer than `limit` where one more does.
///
/// # Errors
///
/// `Halt::Of(Failed)` exactly where the source's count of faults rose, else want of memory. The
/// bytes that were read before are lost then.
pub fn read_limited<S: Source>(
    alloc: Global,
    source: &mut S,
    limit: usize,
) -> Result<Vec<u8>, Halt<Failed>>
    ensures { ReadsLimited S.left S.faults S.reads limit source.old source.new result }
{
    let mut bytes = Vec::new(alloc);
    let mut piece = [0; PIECE];
    while bytes.len() <= limit {
        let room = (limit - bytes.len()).min(PIECE - 1) + 1;
        let count = source.read(&mut piece[..room]).map_err(Halt::Of)?;
        if count == 0 {
            return Ok(bytes);
        }
        bytes.extend_from_slice(&piece[..count])?;
    }
    Ok(bytes)
}
