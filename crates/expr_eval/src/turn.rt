// What an evaluation comes to.

use eval_data::Need;
use vdm_kinds::{Place, RunFault};
use vdm_values::Value;

/// How far an evaluation comes by itself.
#[derive(Drop)]
pub enum Turn {
    /// It needs this, and goes on with the slot that answers it.
    Needs(Need),
    /// It is over, and gave this value.
    Value(Value),
    /// It is over, with the fault at its place. An exit that leaves it is one too.
    Fault(RunFault, Place),
}
