// A thread that waits for permission.

use run_journal::Thread;
use vdm_kinds::OpRef;

/// A thread that waits for permission to begin a call: the object and the operation that it wants.
#[derive(Clone, Copy, Debug)]
pub struct Blocked {
    pub thread: Thread,
    pub object: u32,
    pub op: OpRef,
}
