// Assignments that are under way.

use crate::goal::Goal;
use eval_data::Here;
use run_journal::Write;
use vdm_kinds::Place;
use vdm_tree::{Assignment, Expr, TargetStep};
use vdm_values::Value;

/// What is done with the value that a variable is to get.
#[derive(Drop)]
pub enum Kept<'t> {
    /// It is written.
    Stored,
    /// It is written together with these values, on the object of the first of them where there is one, and with those of the
    /// assignments that are left.
    Joined(Option<u32>, Vec<Write>, &'t [Assignment]),
}

/// An assignment by the statement at the place, of which an expression is being evaluated, or whose value is being tested.
pub struct Assigning<'t> {
    pub here: Here<'t>,
    pub place: Place,
    pub goal: Goal<'t>,
    /// The steps into the variable.
    pub steps: &'t [TargetStep],
    /// The steps behind the one whose expression is being evaluated.
    pub left: &'t [TargetStep],
    /// The expression for the value, while it is still to come.
    pub value: Option<&'t Box<Expr>>,
    /// The values that came: the indices, and behind them that of the expression.
    pub done: Vec<Value>,
    pub kept: Kept<'t>,
}

// By hand, so that whoever drops it calls this, and does not prove again the dropping of all that is in it.
impl<'t> Drop for Assigning<'t> {
    fn drop(self) {
        let Assigning {
            here: _,
            place: _,
            goal: _,
            steps: _,
            left: _,
            value: _,
            done: _,
            kept: _,
        } = self;
    }
}
