// `while`

ghost use Rattle.std.specs.Prelude.{◌≡◌, ◌≤◌};
ghost use Rattle.abstract_syntax.specs.Classes.{SpecTree};
ghost use Rattle.expr_tree.specs.View.{boxed_view};
ghost use Rattle.vdm_tree.specs.StmtView.{boxed_stmt};
ghost use Rattle.node_meaning.specs.Envs.{Locals};
ghost use Rattle.node_meaning.specs.Matching.{on_truth};
ghost use Rattle.stmt_meaning.specs.Flows.{unless_ended};
ghost use Rattle.stmt_meaning.specs.Loops.{while_decided as while_plan, while_round};
ghost use Rattle.node_meaning.specs.Tasks.{with_value};
ghost use Rattle.eval_data.specs.Parts.{here_of, flow_of};
ghost use Rattle.step_data.specs.Actions.{action_code, height};

use eval_data::{Flow, Here};
use flow_values::{Truth, truth_in};
use step_data::{Action, Pending, Round, Task, Waiting};
use vdm_kinds::Place;
use vdm_tree::{Expr, Stmt};

/// What came of the condition decides whether the body follows.
pub fn while_decided<'t>(
    here: Here<'t>,
    condition: &'t Box<Expr>,
    body: &'t Box<Stmt>,
    place: Place,
    flow: Flow,
) -> Action<'t>
    ensures same { (spec : SpecTree) (locals : Locals) → action_code spec locals result ≡ with_value place (on_truth place (while_plan (here_of here.entry) (boxed_view condition.entry.now) (boxed_stmt body.entry.now) place)) (flow_of flow locals) }
    ensures falls { height result ≤ 1 }
{
    match truth_in(flow) {
        Truth::Is(truth) => while_true(here, condition, body, place, truth),
        Truth::Fails(fault) => Action::Fail(fault, place),
        Truth::Exits(value, from) => Action::Finish(Flow::Exited(value, from)),
    }
}

/// The body, where the condition is true.
fn while_true<'t>(
    here: Here<'t>,
    condition: &'t Box<Expr>,
    body: &'t Box<Stmt>,
    place: Place,
    truth: bool,
) -> Action<'t>
    ensures same { (spec : SpecTree) (locals : Locals) → action_code spec locals result ≡ while_plan (here_of here.entry) (boxed_view condition.entry.now) (boxed_stmt body.entry.now) place truth locals }
    ensures falls { height result ≤ 1 }
{
    if truth {
        let waiting = Waiting::Again(here, condition, body, place);
        Action::Part(Task::Stmt(here, body), Pending { waiting })
    } else {
        Action::Finish(Flow::Next)
    }
}

/// Behind the body the condition comes once more, unless the body ended.
pub fn again<'t>(
    here: Here<'t>,
    condition: &'t Box<Expr>,
    body: &'t Box<Stmt>,
    place: Place,
    flow: Flow,
) -> Action<'t>
    ensures same { (spec : SpecTree) (locals : Locals) → action_code spec locals result ≡ unless_ended (while_round (here_of here.entry) (boxed_view condition.entry.now) (boxed_stmt body.entry.now) place) (flow_of flow locals) }
    ensures falls { height result ≤ 1 }
{
    match flow {
        Flow::Next => Action::Round(here, Round::While(condition, body, place)),
        Flow::Gave(slot) => Action::Finish(Flow::Gave(slot)),
        Flow::Returned(slot) => Action::Finish(Flow::Returned(slot)),
        Flow::Exited(value, from) => Action::Finish(Flow::Exited(value, from)),
    }
}
