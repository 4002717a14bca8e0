// What `pre` says of a call, and its body.

ghost use Rattle.std.specs.Prelude.{◌≡◌, ◌≤◌, ◌+◌, IfOk, length};
ghost use Rattle.abstract_syntax.specs.Classes.{SpecTree};
ghost use Rattle.node_meaning.specs.Envs.{Locals};
ghost use Rattle.node_meaning.specs.Matching.{on_truth};
ghost use Rattle.node_meaning.specs.Tasks.{with_value};
ghost use Rattle.stmt_meaning.specs.Calls.{body_left as left_plan, body_of as body_plan, pre_decided as decided_plan, pre_of as pre_plan};
ghost use Rattle.spec_table.specs.Tables.{table_spec};
ghost use Rattle.eval_data.specs.Parts.{flow_of};
ghost use Rattle.step_data.specs.Actions.{action_code, busy, height};
ghost use Rattle.step_data.specs.Callings.{calling_of};

use crate::places::calling_here;
use crate::results::left_with;
use eval_data::Flow;
use flow_values::{Truth, truth_in};
use spec_table::ClassTable;
use std::alloc::Global;
use step_data::{Action, Asking, Calling, Pending, Task, Waiting};
use vdm_kinds::{Name, OutOfMemory, RunFault};
use vdm_tree::Body;
use vdm_values::Slot;

/// Whether `pre` holds of a call, where there is one, and then the body, before which so many locals stand.
pub(crate) fn pre_of<'t>(call: Box<Calling<'t>>, count: usize) -> Action<'t>
    ensures same { (spec : SpecTree) (locals : Locals) → length locals ≡ count → action_code spec locals result ≡ pre_plan spec (calling_of call.entry.value) (calling_of call.entry.value).operation.pre locals }
    ensures busy { busy result ≤ 1 }
    ensures falls { height result ≤ 1 }
{
    let operation = call.operation;
    match &operation.pre {
        None => body_of(call, count),
        Some(pre) => {
            let here = calling_here(&call);
            Action::Part(
                Task::Expr(here, pre),
                Pending {
                    waiting: Waiting::Pre(call),
                },
            )
        }
    }
}

/// What came of `pre`: where it holds the body follows, among these locals.
pub fn pre_came<'t>(locals: &[(Name, Slot)], call: Box<Calling<'t>>, flow: Flow) -> Action<'t>
    ensures same { (spec : SpecTree) → action_code spec locals.now result ≡ with_value call.entry.value.place (on_truth call.entry.value.place (decided_plan spec (calling_of call.entry.value))) (flow_of flow locals.now) }
    ensures busy { busy result ≤ 1 }
    ensures falls { height result ≤ 1 }
{
    match truth_in(flow) {
        Truth::Is(holds) => pre_decided(call, holds, locals.len()),
        Truth::Fails(fault) => Action::Fail(fault, call.place),
        Truth::Exits(value, from) => Action::Finish(Flow::Exited(value, from)),
    }
}

/// `pre` holds, or does not.
fn pre_decided<'t>(call: Box<Calling<'t>>, holds: bool, count: usize) -> Action<'t>
    ensures same { (spec : SpecTree) (locals : Locals) → length locals ≡ count → action_code spec locals result ≡ decided_plan spec (calling_of call.entry.value) holds locals }
    ensures busy { busy result ≤ 1 }
    ensures falls { height result ≤ 1 }
{
    if holds {
        body_of(call, count)
    } else {
        Action::Fail(RunFault::Pre, call.place)
    }
}

/// The body of a call, before which so many locals stand. One that is not written is undefined at the call.
fn body_of<'t>(call: Box<Calling<'t>>, count: usize) -> Action<'t>
    ensures same { (spec : SpecTree) (locals : Locals) → length locals ≡ count → action_code spec locals result ≡ body_plan spec (calling_of call.entry.value) (calling_of call.entry.value).operation.body locals }
    ensures busy { busy result ≤ 1 }
    ensures falls { height result ≤ 1 }
{
    let operation = call.operation;
    match &operation.body {
        Body::Written(body) => {
            let here = calling_here(&call);
            Action::Part(
                Task::Stmt(here, body),
                Pending {
                    waiting: Waiting::Body(call, count),
                },
            )
        }
        _ => Action::Fail(RunFault::Undefined, call.place),
    }
}

/// What follows the body of a call, before which so many locals stood: its result is tested; an exit that left it asks to finish first.
///
/// # Errors
/// Want of memory.
pub fn body_left<'t>(
    alloc: Global,
    table: &'t ClassTable,
    locals: &mut Vec<(Name, Slot)>,
    call: Box<Calling<'t>>,
    count: usize,
    flow: Flow,
) -> Result<Action<'t>, OutOfMemory>
    ensures same { IfOk result (λ a. action_code (table_spec table.now) locals.new.items a ≡ left_plan (table_spec table.now) (calling_of call.entry.value) count (flow_of flow locals.old.items)) }
    ensures busy { IfOk result (λ a. busy a ≤ 1) }
    ensures falls { IfOk result (λ a. height a ≤ 2) }
{
    match flow {
        Flow::Gave(_slot) => Ok(Action::Fail(RunFault::Undefined, call.place)),
        Flow::Next => {
            locals.truncate(count);
            left_with(alloc, table, locals, call, Slot::Unset)
        }
        Flow::Returned(slot) => {
            locals.truncate(count);
            left_with(alloc, table, locals, call, slot)
        }
        Flow::Exited(value, from) => Ok(exited(call, Flow::Exited(value, from))),
    }
}

/// The call asks to finish, and hands on what came.
fn exited<'t>(call: Box<Calling<'t>>, flow: Flow) -> Action<'t>
    ensures { result ≡ Action.Ask (Asking.Finish call.entry.value.me call.entry.value.op flow) }
{
    Action::Ask(Asking::Finish(call.me, call.op, flow))
}
