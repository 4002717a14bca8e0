// Exits, and the statement that comes last whatever was left.

ghost use Rattle.std.specs.Prelude.{◌≡◌, ◌≤◌, []};
ghost use Rattle.abstract_syntax.specs.Classes.{SpecTree};
ghost use Rattle.vdm_tree.specs.StmtView.{boxed_stmt};
ghost use Rattle.node_meaning.specs.Envs.{Locals};
ghost use Rattle.stmt_meaning.specs.Flows.{exit_value as exit_plan};
ghost use Rattle.stmt_meaning.specs.Handlers.{at_last as at_last_plan, unless_replaced as replaced_plan};
ghost use Rattle.node_meaning.specs.Tasks.{with_value};
ghost use Rattle.eval_data.specs.Parts.{here_of, flow_of};
ghost use Rattle.step_data.specs.Actions.{action_code, height};

use eval_data::{Flow, Here};
use step_data::{Action, Pending, Task, Waiting};
use vdm_kinds::{Name, Place, RunFault};
use vdm_tree::Stmt;
use vdm_values::Slot;

/// What came is the value with which the statement at the place exits.
pub fn exit_with<'t>(place: Place, flow: Flow) -> Action<'t>
    ensures same { (spec : SpecTree) (locals : Locals) → action_code spec locals result ≡ with_value place (exit_plan place) (flow_of flow locals) }
    ensures falls { height result ≤ 1 }
{
    match flow {
        Flow::Gave(Slot::Held(value)) => Action::Finish(Flow::Exited(value, place)),
        Flow::Gave(Slot::Unset) => Action::Fail(RunFault::Undefined, place),
        Flow::Next => Action::Fail(RunFault::Undefined, place),
        Flow::Returned(_slot) => Action::Fail(RunFault::Undefined, place),
        Flow::Exited(value, from) => Action::Finish(Flow::Exited(value, from)),
    }
}

/// The last statement of `always`, whatever came of its body: the locals behind the first so many go.
pub fn at_last<'t>(
    locals: &mut Vec<(Name, Slot)>,
    here: Here<'t>,
    last: &'t Box<Stmt>,
    count: usize,
    flow: Flow,
) -> Action<'t>
    ensures same { (spec : SpecTree) → action_code spec locals.new.items result ≡ at_last_plan (here_of here.entry) count (boxed_stmt last.entry.now) (flow_of flow locals.old.items) }
    ensures falls { height result ≤ 1 }
{
    locals.truncate(count);
    Action::Part(
        Task::Stmt(here, last),
        Pending {
            waiting: Waiting::Replaced(flow),
        },
    )
}

/// What came of the body of `always` stays, unless its last statement returned or exited.
pub fn unless_replaced<'t>(before: Flow, flow: Flow) -> Action<'t>
    ensures same { (spec : SpecTree) (locals : Locals) → action_code spec locals result ≡ replaced_plan (flow_of before []) (flow_of flow locals) }
    ensures falls { height result ≤ 1 }
{
    match flow {
        Flow::Next => Action::Finish(before),
        Flow::Gave(slot) => Action::Finish(Flow::Gave(slot)),
        Flow::Returned(slot) => Action::Finish(Flow::Returned(slot)),
        Flow::Exited(value, from) => Action::Finish(Flow::Exited(value, from)),
    }
}
