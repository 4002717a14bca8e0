// Threads that are to start.

ghost use Rattle.std.specs.Prelude.{◌≡◌, ◌≤◌};
ghost use Rattle.abstract_syntax.specs.Classes.{SpecTree};
ghost use Rattle.node_meaning.specs.Envs.{Locals};
ghost use Rattle.expr_tree.specs.View.{boxed_view};
ghost use Rattle.node_meaning.specs.Tasks.{evaluated, with_value};
ghost use Rattle.stmt_meaning.specs.Statements.{all_started as all_plan, started as started_plan};
ghost use Rattle.eval_data.specs.Parts.{flow_of, here_of};
ghost use Rattle.step_data.specs.Actions.{action_code, height};

use eval_data::{Flow, Here};
use step_data::{Action, Pending, Task, Waiting};
use vdm_kinds::{Place, RunFault};
use vdm_tree::Expr;
use vdm_values::{Node, Slot, Value};

/// `start(object)`
pub(crate) fn start_of<'t>(here: Here<'t>, object: &'t Box<Expr>, place: Place) -> Action<'t>
    ensures same { (spec : SpecTree) (locals : Locals) → action_code spec locals result ≡ evaluated (here_of here.entry) locals (boxed_view object.entry.now) place (started_plan place) }
    ensures falls { height result ≤ 1 }
{
    let waiting = Waiting::Start(place);
    Action::Part(Task::Expr(here, object), Pending { waiting })
}

/// `startlist(objects)`
pub(crate) fn start_all_of<'t>(here: Here<'t>, objects: &'t Box<Expr>, place: Place) -> Action<'t>
    ensures same { (spec : SpecTree) (locals : Locals) → action_code spec locals result ≡ evaluated (here_of here.entry) locals (boxed_view objects.entry.now) place (all_plan place) }
    ensures falls { height result ≤ 1 }
{
    let waiting = Waiting::StartAll(place);
    Action::Part(Task::Expr(here, objects), Pending { waiting })
}

/// What came is the object whose thread is to start. So far no class has a thread.
pub fn start<'t>(place: Place, flow: Flow) -> Action<'t>
    ensures same { (spec : SpecTree) (locals : Locals) → action_code spec locals result ≡ with_value place (started_plan place) (flow_of flow locals) }
    ensures falls { height result ≤ 1 }
{
    match flow {
        Flow::Gave(Slot::Held(value)) => started(place, &value),
        Flow::Gave(Slot::Unset) => Action::Fail(RunFault::Undefined, place),
        Flow::Next => Action::Fail(RunFault::Undefined, place),
        Flow::Returned(_slot) => Action::Fail(RunFault::Undefined, place),
        Flow::Exited(value, from) => Action::Finish(Flow::Exited(value, from)),
    }
}

fn started<'t>(place: Place, value: &Value) -> Action<'t>
    ensures same { (spec : SpecTree) (locals : Locals) → action_code spec locals result ≡ started_plan place value.now locals }
    ensures falls { height result ≤ 1 }
{
    match value.node() {
        Node::Object {
            number: _,
            class: _,
        } => Action::Fail(RunFault::NoThread, place),
        _ => Action::Fail(RunFault::TypeFault, place),
    }
}

/// They are the objects whose threads are to start.
pub fn start_all<'t>(place: Place, flow: Flow) -> Action<'t>
    ensures same { (spec : SpecTree) (locals : Locals) → action_code spec locals result ≡ with_value place (all_plan place) (flow_of flow locals) }
    ensures falls { height result ≤ 1 }
{
    match flow {
        Flow::Gave(Slot::Held(value)) => all_started(place, &value),
        Flow::Gave(Slot::Unset) => Action::Fail(RunFault::Undefined, place),
        Flow::Next => Action::Fail(RunFault::Undefined, place),
        Flow::Returned(_slot) => Action::Fail(RunFault::Undefined, place),
        Flow::Exited(value, from) => Action::Finish(Flow::Exited(value, from)),
    }
}

fn all_started<'t>(place: Place, value: &Value) -> Action<'t>
    ensures same { (spec : SpecTree) (locals : Locals) → action_code spec locals result ≡ all_plan place value.now locals }
    ensures falls { height result ≤ 1 }
{
    match value.node() {
        Node::Set(values) => match values.as_slice() {
            [] => Action::Finish(Flow::Next),
            [first, ..] => started(place, first),
        },
        _ => Action::Fail(RunFault::TypeFault, place),
    }
}
