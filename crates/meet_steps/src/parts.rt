// Statements among what is bound for them, and parts.

ghost use Rattle.std.specs.Prelude.{◌≡◌, ◌≤◌};
ghost use Rattle.abstract_syntax.specs.Classes.{SpecTree};
ghost use Rattle.expr_tree.specs.View.{boxed_view};
ghost use Rattle.vdm_tree.specs.StmtView.{boxed_stmt};
ghost use Rattle.plans.specs.Plans.{part};
ghost use Rattle.node_meaning.specs.Envs.{Locals, at};
ghost use Rattle.node_meaning.specs.Tasks.{expr_in};
ghost use Rattle.stmt_meaning.specs.Flows.{stmt_within, unless_ended};
ghost use Rattle.eval_data.specs.Parts.{here_of, flow_of};
ghost use Rattle.step_data.specs.Actions.{action_code, height, waiting_then};

use eval_data::{Flow, Here};
use step_data::{Action, Pending, Task, Waiting};
use vdm_tree::{Expr, Stmt};

/// An expression, and what is done with what comes of it.
pub(crate) fn part<'t>(here: Here<'t>, tree: &'t Box<Expr>, waiting: Waiting<'t>) -> Action<'t>
    ensures same { (spec : SpecTree) (locals : Locals) → action_code spec locals result ≡ part (expr_in (at (here_of here.entry) locals) (boxed_view tree.now)) (waiting_then spec waiting.entry) }
    ensures falls { height result ≤ 1 }
{
    Action::Part(Task::Expr(here, tree), Pending { waiting })
}

/// The statement among the locals that were bound for it, of which so many stand before those.
pub fn within<'t>(here: Here<'t>, body: &'t Box<Stmt>, count: usize) -> Action<'t>
    ensures same { (spec : SpecTree) (locals : Locals) → action_code spec locals result ≡ stmt_within (here_of here.entry) count (boxed_stmt body.now) locals }
    ensures falls { height result ≤ 1 }
{
    Action::Part(
        Task::Stmt(here, body),
        Pending {
            waiting: Waiting::Cut(count),
        },
    )
}

/// Behind the search of `let be`: where it found a choice, the statement follows.
pub fn found<'t>(here: Here<'t>, body: &'t Box<Stmt>, count: usize, flow: Flow) -> Action<'t>
    ensures same { (spec : SpecTree) (locals : Locals) → action_code spec locals result ≡ unless_ended (stmt_within (here_of here.entry) count (boxed_stmt body.entry.now)) (flow_of flow locals) }
    ensures falls { height result ≤ 1 }
{
    match flow {
        Flow::Next => within(here, body, count),
        Flow::Gave(slot) => Action::Finish(Flow::Gave(slot)),
        Flow::Returned(slot) => Action::Finish(Flow::Returned(slot)),
        Flow::Exited(value, from) => Action::Finish(Flow::Exited(value, from)),
    }
}
