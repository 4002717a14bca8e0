// Where a thread is at rest.

use step_data::Asking;
use vdm_kinds::{Place, RunFault};
use vdm_values::Value;

/// Where a thread is at rest.
#[derive(Drop)]
pub(crate) enum Rest<'t> {
    /// It needs an answer.
    Asks(Asking<'t>),
    /// It is to fail with the fault at its place.
    Fails(RunFault, Place),
    /// It is to fail because of an exit with this value, at this place.
    Exits(Value, Place),
    Over,
    /// It met want of memory.
    Spent,
}
