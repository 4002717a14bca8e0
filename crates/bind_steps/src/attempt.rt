// What came of patterns that met values.

use vdm_kinds::RunFault;

/// What came of patterns that met values.
#[derive(Clone, Copy)]
pub enum Attempt {
    /// They match, and what they bind stands behind the locals.
    Matched,
    /// They don't match; the locals are what they were.
    Missed,
    /// A fault of the node.
    Fault(RunFault),
}
