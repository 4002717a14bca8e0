// What a search comes to.

use vdm_kinds::RunFault;

/// What a search comes to behind the choices that it passes over.
#[derive(Clone, Copy)]
pub(crate) enum Found {
    /// No choice is left.
    Exhausted,
    /// The patterns match the first choice, and what they bind stands behind the locals.
    Matched,
    /// They match it, with a fault.
    Fault(RunFault),
}
