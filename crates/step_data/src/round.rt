// Rounds of loops.

ghost use Rattle.std.specs.Prelude.{◌≡◌};
ghost use Rattle.node_meaning.specs.Envs.{Locals};
ghost use Rattle.eval_data.specs.Parts.{here_of};
ghost use Rattle.step_data.specs.Parts.{first_task, round_of, task_of};

use crate::task::Task;
use eval_data::Here;
use vdm_kinds::{Name, Place};
use vdm_tree::{Expr, Handler, Stmt};

/// Where `for i = a to b by c` stands.
#[derive(Clone, Copy)]
pub struct Counting<'t> {
    pub name: Name,
    /// How many locals stand before the number.
    pub count: usize,
    /// The number of this round.
    pub at: i128,
    /// The difference to the number of the next round.
    pub step: i128,
    /// The number behind which there is none.
    pub last: i128,
    pub body: &'t Box<Stmt>,
}

/// A round of a loop.
#[derive(Clone, Copy)]
pub enum Round<'t> {
    /// Of a `while` at the place: its condition, and the body where that is true.
    While(&'t Box<Expr>, &'t Box<Stmt>, Place),
    Counts(Counting<'t>),
    /// Of a `tixe` at the place: its handlers, how many locals stand before those that a pattern binds, and the statement whose exits
    /// they handle.
    Handles(&'t [Handler], usize, &'t Box<Stmt>, Place),
}

impl<'t> Round<'t> {
    /// The node with which the round begins.
    pub fn task(self, here: Here<'t>) -> Task<'t>
        ensures { (locals : Locals) → task_of result locals ≡ first_task (here_of here.entry) locals (round_of self.entry) }
    {
        match self {
            Round::While(condition, _, _) => Task::Expr(here, condition),
            Round::Counts(counting) => Task::Stmt(here, counting.body),
            Round::Handles(_, _, body, _) => Task::Stmt(here, body),
        }
    }
}

/// The parts of `for i = a to b by c` behind the first number.
#[derive(Clone, Copy)]
pub struct ForLoop<'t> {
    pub name: Name,
    pub last: &'t Box<Expr>,
    pub by: &'t Option<Box<Expr>>,
    pub body: &'t Box<Stmt>,
    pub place: Place,
}
