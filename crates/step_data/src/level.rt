// A level of the stack of a thread.

use crate::around::Around;
use crate::pending::Pending;

/// What waits for what comes of a part, and what stands round the node that waits.
#[derive(Drop)]
pub struct Level<'t> {
    pub around: Around<'t>,
    pub waiting: Pending<'t>,
}
