// Tests of values for which an invariant is evaluated.

use crate::nest::Nest;
use conform::Testing;
use vdm_kinds::{Name, Place};
use vdm_values::{Slot, Value};

/// What is done once it is decided how a value fits a type.
#[derive(Drop)]
pub enum Verdict {
    /// This is the value, where it fits; a fault else.
    Passes(Value),
    /// Whether it fits is the value.
    Answers,
}

/// A test of a value against a type, for which an invariant is being evaluated.
pub struct Asking<'t> {
    pub testing: Testing<'t>,
    pub verdict: Verdict,
    /// Where the test is made.
    pub place: Place,
    /// Inside of which tests it is made.
    pub nest: Nest,
    /// The locals of the node that makes it, which the invariant does not see.
    pub outer: Vec<(Name, Slot)>,
}

// By hand, so that whoever drops it calls this, and does not prove again the dropping of all that is in a test.
impl<'t> Drop for Asking<'t> {
    fn drop(self) {
        let Asking {
            testing: _,
            verdict: _,
            place: _,
            nest: _,
            outer: _,
        } = self;
    }
}
