// What is done next.

ghost use Rattle.std.specs.Prelude.{◌≡◌};
ghost use Rattle.node_meaning.specs.Envs.{Locals};
ghost use Rattle.node_meaning.specs.Needs.{Setting};
ghost use Rattle.node_meaning.specs.Tasks.{value as value_of};
ghost use Rattle.eval_data.specs.Steps.{code_of};

use crate::flow::Flow;
use crate::frame::{After, Frame};
use crate::here::Here;
use crate::need::Need;
use crate::test_part::TestPart;
use expr_tree::Expr;
use vdm_kinds::{Place, RunFault};
use vdm_values::{Slot, Value};

/// What is done next: a plan of the meaning, as data. The locals are those of whoever does it.
#[derive(Drop)]
pub enum Step<'t> {
    /// A node is done.
    Finish(Flow),
    /// The fault, at its place.
    Fail(RunFault, Place),
    /// A part, and what is done with what comes of it.
    Part(Here<'t>, &'t Expr, Frame<'t>),
    /// A part in the node's stead.
    Become(Here<'t>, &'t Expr),
    /// A part of the test of a value, with what is done behind it.
    Test(Box<TestPart<'t>>),
    /// Something is needed for the node at the place; and what is done with what comes of it.
    Need(Need, Place, After<'t>),
}

impl<'t> Step<'t> {
    /// A node is done with this value.
    pub fn value(value: Value) -> Step<'t>
        ensures { (setting : Setting) (locals : Locals) → code_of setting locals result ≡ value_of value locals }
    {
        Step::Finish(Flow::Gave(Slot::Held(value)))
    }
}
