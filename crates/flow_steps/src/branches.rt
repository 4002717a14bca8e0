// The statement of the one branch whose condition is true.

ghost use Rattle.std.specs.Prelude.{◌≡◌, ◌≤◌};
ghost use Rattle.abstract_syntax.specs.Classes.{SpecTree};
ghost use Rattle.vdm_tree.specs.StmtView.{boxed_stmt, maybe_stmt};
ghost use Rattle.node_meaning.specs.Envs.{Locals};
ghost use Rattle.node_meaning.specs.Matching.{on_truth};
ghost use Rattle.stmt_meaning.specs.Blocks.{otherwise_of as otherwise_plan};
ghost use Rattle.stmt_meaning.specs.Statements.{branch_taken, branches_of};
ghost use Rattle.node_meaning.specs.Tasks.{with_value};
ghost use Rattle.eval_data.specs.Parts.{here_of, flow_of};
ghost use Rattle.step_data.specs.Parts.{branches_left};
ghost use Rattle.step_data.specs.Actions.{action_code, height};

use eval_data::{Flow, Here};
use flow_values::{Truth, truth_in};
use step_data::{Action, Pending, Task, Waiting};
use vdm_kinds::Place;
use vdm_tree::{Stmt, StmtBranch};

/// What came of the condition of a branch decides on it.
pub fn branch_decided<'t>(
    here: Here<'t>,
    statement: &'t Box<Stmt>,
    more: &'t [StmtBranch],
    otherwise: &'t Option<Box<Stmt>>,
    place: Place,
    flow: Flow,
) -> Action<'t>
    ensures same { (spec : SpecTree) (locals : Locals) → action_code spec locals result ≡ with_value place (on_truth place (branch_taken (here_of here.entry) (boxed_stmt statement.entry.now) (branches_of (here_of here.entry) place (branches_left more.entry.now) (maybe_stmt otherwise.entry.now)))) (flow_of flow locals) }
    ensures falls { height result ≤ 1 }
{
    match truth_in(flow) {
        Truth::Is(truth) => branch(here, statement, more, otherwise, place, truth),
        Truth::Fails(fault) => Action::Fail(fault, place),
        Truth::Exits(value, from) => Action::Finish(Flow::Exited(value, from)),
    }
}

/// The condition of a branch is true, or not.
fn branch<'t>(
    here: Here<'t>,
    statement: &'t Box<Stmt>,
    more: &'t [StmtBranch],
    otherwise: &'t Option<Box<Stmt>>,
    place: Place,
    truth: bool,
) -> Action<'t>
    ensures same { (spec : SpecTree) (locals : Locals) → action_code spec locals result ≡ branch_taken (here_of here.entry) (boxed_stmt statement.entry.now) (branches_of (here_of here.entry) place (branches_left more.entry.now) (maybe_stmt otherwise.entry.now)) truth locals }
    ensures falls { height result ≤ 1 }
{
    if truth {
        Action::Become(Task::Stmt(here, statement))
    } else {
        branches(here, more, otherwise, place)
    }
}

/// The first of the branches that are left, or what stands behind all of them.
fn branches<'t>(
    here: Here<'t>,
    more: &'t [StmtBranch],
    otherwise: &'t Option<Box<Stmt>>,
    place: Place,
) -> Action<'t>
    ensures same { (spec : SpecTree) (locals : Locals) → action_code spec locals result ≡ branches_of (here_of here.entry) place (branches_left more.entry.now) (maybe_stmt otherwise.entry.now) locals }
    ensures falls { height result ≤ 1 }
{
    match more {
        [next, others @ ..] => {
            let waiting = Waiting::Branches(here, &next.body, others, otherwise, place);
            Action::Part(Task::Expr(here, &next.condition), Pending { waiting })
        }
        [] => otherwise_of(here, otherwise),
    }
}

/// The statement behind `else`, or nothing.
fn otherwise_of<'t>(here: Here<'t>, otherwise: &'t Option<Box<Stmt>>) -> Action<'t>
    ensures same { (spec : SpecTree) (locals : Locals) → action_code spec locals result ≡ otherwise_plan (here_of here.entry) (maybe_stmt otherwise.entry.now) locals }
    ensures falls { height result ≤ 1 }
{
    match otherwise {
        Some(statement) => Action::Become(Task::Stmt(here, statement)),
        None => Action::Finish(Flow::Next),
    }
}
