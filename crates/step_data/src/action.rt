// What a thread does next.

ghost use Rattle.std.specs.Prelude.{◌≡◌, ◌≤◌, ◌+◌};
ghost use Rattle.abstract_syntax.specs.Classes.{SpecTree};
ghost use Rattle.node_meaning.specs.Envs.{Locals};
ghost use Rattle.eval_data.specs.Steps.{code_of, IsLight};
ghost use Rattle.step_data.specs.Actions.{action_code, busy, most, height};
ghost use Rattle.stmt_meaning.specs.Questions.{of_thread};

use crate::asking::Asking;
use crate::block::BlockRest;
use crate::calling::Calling;
use crate::fit_part::FitPart;
use crate::pending::Pending;
use crate::round::Round;
use crate::task::Task;
use crate::waiting::Waiting;
use eval_data::{After, Flow, Here, Need, Step, TestPart};
use vdm_kinds::{Place, RunFault};
use vdm_values::Value;

/// What a thread does next: a plan of the meaning, as data. The locals are the thread's.
#[derive(Drop)]
pub enum Action<'t> {
    /// A node is done.
    Finish(Flow),
    /// The fault, at its place.
    Fail(RunFault, Place),
    /// An exit with this value, at this place, leaves the thread.
    Uncaught(Value, Place),
    Ask(Asking<'t>),
    /// A part, and what is done with what comes of it.
    Part(Task<'t>, Pending<'t>),
    /// A node in the stead of another.
    Become(Task<'t>),
    /// A round of a loop.
    Round(Here<'t>, Round<'t>),
    /// The statements of a block, among its local variables.
    Block(BlockRest<'t>),
    /// A part of the test of a value in an expression, with what is done behind it.
    Test(Box<TestPart<'t>>),
    /// A part of the test of a value elsewhere, with what is done behind it.
    Fit(Box<FitPart<'t>>),
    /// A call begins, and the locals are put aside until it is left.
    Begin(Box<Calling<'t>>),
    /// Something is needed for the node at the place; and what is done with what comes of it.
    Need(Need, Place, After<'t>),
}

impl<'t> Action<'t> {
    /// What a step of an expression is.
    pub fn of(step: Step<'t>) -> Action<'t>
        ensures same { (spec : SpecTree) (locals : Locals) → action_code spec locals result ≡ code_of (of_thread spec) locals step.entry }
        ensures falls { height result ≤ 9 + most }
        ensures low { IsLight step.entry → height result ≤ 1 }
        ensures idle { IsLight step.entry → busy result ≤ 1 }
    {
        match step {
            Step::Finish(flow) => Action::Finish(flow),
            Step::Fail(fault, place) => Action::Fail(fault, place),
            Step::Part(here, tree, frame) => {
                Action::Part(
                    Task::Expr(here, tree),
                    Pending {
                        waiting: Waiting::Expr(frame),
                    },
                )
            }
            Step::Become(here, tree) => Action::Become(Task::Expr(here, tree)),
            Step::Test(test) => Action::Test(test),
            Step::Need(need, place, after) => Action::Need(need, place, after),
        }
    }
}
