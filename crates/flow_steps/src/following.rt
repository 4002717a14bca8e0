// What follows statements, and the values that they leave.

ghost use Rattle.std.specs.Prelude.{◌≡◌, ◌≤◌};
ghost use Rattle.abstract_syntax.specs.Classes.{SpecTree};
ghost use Rattle.node_meaning.specs.Envs.{Locals};
ghost use Rattle.stmt_meaning.specs.Calls.{back as back_plan};
ghost use Rattle.stmt_meaning.specs.Flows.{called as called_plan, unless_ended_at as unless_ended_plan, sequence as sequence_plan, return_value as return_plan};
ghost use Rattle.node_meaning.specs.Tasks.{cut_to};
ghost use Rattle.eval_data.specs.Parts.{here_of, flow_of};
ghost use Rattle.step_data.specs.Parts.{statements_of};
ghost use Rattle.step_data.specs.Actions.{action_code, busy, height};

use eval_data::{Flow, Here};
use step_data::{Action, Pending, Task, Waiting};
use vdm_kinds::Name;
use vdm_tree::Stmt;
use vdm_values::{Slot, Value};

/// The statements one after the other, and then the locals behind the first so many go.
pub fn sequence<'t>(
    locals: &mut Vec<(Name, Slot)>,
    here: Here<'t>,
    statements: &'t [Stmt],
    count: usize,
) -> Action<'t>
    ensures same { (spec : SpecTree) → action_code spec locals.new.items result ≡ sequence_plan (here_of here.entry) count (statements_of statements.now) locals.old.items }
    ensures falls { height result ≤ 1 }
{
    match statements {
        [statement, others @ ..] => {
            let waiting = Waiting::Rest(here, others, count);
            Action::Part(Task::Stmt(here, statement), Pending { waiting })
        }
        [] => {
            locals.truncate(count);
            Action::Finish(Flow::Next)
        }
    }
}

/// What follows a statement of a block: the others, unless it ended the body.
pub fn unless_ended<'t>(
    locals: &mut Vec<(Name, Slot)>,
    here: Here<'t>,
    statements: &'t [Stmt],
    count: usize,
    flow: Flow,
) -> Action<'t>
    ensures same { (spec : SpecTree) → action_code spec locals.new.items result ≡ unless_ended_plan count (sequence_plan (here_of here.entry) count (statements_of statements.now)) (flow_of flow locals.old.items) }
    ensures falls { height result ≤ 1 }
{
    match flow {
        Flow::Next => sequence(locals, here, statements, count),
        Flow::Gave(slot) => cut(locals, count, Flow::Gave(slot)),
        Flow::Returned(slot) => cut(locals, count, Flow::Returned(slot)),
        Flow::Exited(value, from) => cut(locals, count, Flow::Exited(value, from)),
    }
}

/// The locals behind the first so many go; what came stays.
pub fn cut<'t>(locals: &mut Vec<(Name, Slot)>, count: usize, flow: Flow) -> Action<'t>
    ensures same { (spec : SpecTree) → action_code spec locals.new.items result ≡ cut_to count (flow_of flow locals.old.items) }
    ensures falls { height result ≤ 1 }
{
    locals.truncate(count);
    Action::Finish(flow)
}

/// What follows a call, however it was left: the locals are again those of the node that calls.
pub fn back<'t>(locals: &mut Vec<(Name, Slot)>, saved: Vec<(Name, Slot)>, flow: Flow) -> Action<'t>
    ensures same { (spec : SpecTree) → action_code spec locals.new.items result ≡ back_plan saved.items (flow_of flow locals.old.items) }
    ensures busy { busy result ≤ 1 }
    ensures falls { height result ≤ 1 }
{
    *locals = saved;
    Action::Finish(flow)
}

/// What follows the call of a call statement: where it gave a value, that ends the body.
pub fn called<'t>(flow: Flow) -> Action<'t>
    ensures same { (spec : SpecTree) (locals : Locals) → action_code spec locals result ≡ called_plan (flow_of flow locals) }
    ensures falls { height result ≤ 1 }
{
    match flow {
        Flow::Gave(Slot::Held(value)) => Action::Finish(Flow::Returned(Slot::Held(value))),
        Flow::Gave(Slot::Unset) => Action::Finish(Flow::Next),
        Flow::Next => Action::Finish(Flow::Next),
        Flow::Returned(slot) => Action::Finish(Flow::Returned(slot)),
        Flow::Exited(value, from) => Action::Finish(Flow::Exited(value, from)),
    }
}

/// The body is done with this value.
pub fn return_value<'t>(value: Value) -> Action<'t>
    ensures same { (spec : SpecTree) (locals : Locals) → action_code spec locals result ≡ return_plan value locals }
    ensures falls { height result ≤ 1 }
{
    Action::Finish(Flow::Returned(Slot::Held(value)))
}
