// How far the test of a value comes by itself.

ghost use Rattle.std.specs.Prelude.{◌≡◌};
ghost use Rattle.node_meaning.specs.Envs.{Locals};
ghost use Rattle.node_meaning.specs.Needs.{Setting};
ghost use Rattle.eval_data.specs.Steps.{code_of};
ghost use Rattle.fit_steps.specs.Tests.{tested_code};

use eval_data::{Frame, Here, Step};
use expr_tree::Expr;
use vdm_kinds::{Place, RunFault};
use vdm_values::Value;

/// How far the test of a value comes by itself.
#[derive(Drop)]
pub enum Tested<'t> {
    /// This comes of it: the value, where it fits, or whether it fits.
    Gives(Value),
    /// The fault stands where the test is made.
    Fails(RunFault),
    /// An invariant is evaluated: a part of it, and what is done with what comes of that.
    Asks(Here<'t>, &'t Expr, Frame<'t>),
}

impl<'t> Tested<'t> {
    /// The test, which is made at the place, as a step.
    pub fn into_step(self, place: Place) -> Step<'t>
        ensures { (setting : Setting) (locals : Locals) → code_of setting locals result ≡ tested_code setting place locals self.entry }
    {
        match self {
            Tested::Gives(value) => Step::value(value),
            Tested::Fails(fault) => Step::Fail(fault, place),
            Tested::Asks(here, tree, frame) => Step::Part(here, tree, frame),
        }
    }
}
