// What is evaluated.

ghost use Rattle.std.specs.Prelude.{◌≡◌};
ghost use Rattle.node_meaning.specs.Envs.{Locals};
ghost use Rattle.node_meaning.specs.Tasks.{env_of, task_place};
ghost use Rattle.eval_data.specs.Parts.{nest_of};
ghost use Rattle.step_data.specs.Parts.{is_statement, task_of};

use eval_data::{Here, Nest};
use vdm_kinds::Place;
use vdm_tree::{Expr, Stmt};

/// A node that is evaluated, which costs one unit.
#[derive(Clone, Copy)]
pub enum Task<'t> {
    /// An expression, for its value.
    Expr(Here<'t>, &'t Expr),
    /// A call whose value is not wanted.
    Call(Here<'t>, &'t Expr),
    Stmt(Here<'t>, &'t Stmt),
}

impl<'t> Task<'t> {
    /// The tests of types round the node.
    pub fn nest(self) -> Nest
        ensures { (locals : Locals) → nest_of result ≡ (env_of (task_of self.entry locals)).here.nest }
    {
        match self {
            Task::Expr(here, _) | Task::Call(here, _) => here.nest,
            Task::Stmt(here, _) => here.nest,
        }
    }

    /// Where the node stands.
    pub fn place(self) -> Place
        ensures { (locals : Locals) → result ≡ task_place (task_of self.entry locals) }
    {
        match self {
            Task::Expr(_, tree) | Task::Call(_, tree) => tree.place(),
            Task::Stmt(_, tree) => tree.place(),
        }
    }

    /// Whether it is a statement, which may assign to local variables.
    pub fn is_statement(self) -> bool
        ensures { result ≡ is_statement self.entry }
    {
        matches!(self, Task::Stmt(_, _))
    }
}
