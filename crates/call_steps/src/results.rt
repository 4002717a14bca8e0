// The result of a call, and what `post` says of it.

ghost use Rattle.std.specs.Prelude.{◌≡◌, ◌≤◌, ◌++◌, Some, IfOk};
ghost use Rattle.abstract_syntax.specs.Classes.{SpecTree};
ghost use Rattle.vdm_values.specs.declared.slot.Slot.TheVariants.{Unset, Held};
ghost use Rattle.node_meaning.specs.Envs.{Locals, no_nest};
ghost use Rattle.node_meaning.specs.Matching.{on_truth};
ghost use Rattle.node_meaning.specs.Tasks.{with_value};
ghost use Rattle.plans.specs.Plans.{bind};
ghost use Rattle.stmt_meaning.specs.Calling.{is_constructor as constructor_call};
ghost use Rattle.stmt_meaning.specs.Calls.{finished as finished_plan, left_with as left_plan, post_decided as decided_plan, result_given as given_plan, result_local, unless_due as due_plan, value_given as value_plan};
ghost use Rattle.stmt_meaning.specs.Questions.{of_thread};
ghost use Rattle.spec_table.specs.Tables.{table_spec};
ghost use Rattle.eval_data.specs.Parts.{flow_of};
ghost use Rattle.fit_steps.specs.Tests.{tested_code, under};
ghost use Rattle.type_tree.specs.TypeView.{type_view};
ghost use Rattle.node_meaning.specs.Fitting.{fitted as fitted_plan};
ghost use Rattle.node_meaning.specs.Needs.{Asker};
ghost use Rattle.step_data.specs.Actions.{action_code, busy, height};
ghost use Rattle.step_data.specs.Callings.{calling_of};

use crate::places::calling_here;
use bind_steps::push_shared;
use eval_data::{Flow, Nest};
use fit_steps::{Tested, fitted};
use flow_values::{Came, Truth, truth_in, value_in};
use function_steps::result_name;
use spec_table::ClassTable;
use std::alloc::Global;
use step_data::{Action, Asking, Calling, Pending, Task, Waiting};
use type_tree::TypeExpr;
use vdm_kinds::{Name, OutOfMemory, RunFault};
use vdm_values::{Slot, Value};

/// What follows a body that left this. A result that is due has to come, and has to fit; else none may come.
pub(crate) fn left_with<'t>(
    alloc: Global,
    table: &'t ClassTable,
    locals: &mut Vec<(Name, Slot)>,
    call: Box<Calling<'t>>,
    slot: Slot,
) -> Result<Action<'t>, OutOfMemory>
    ensures same { IfOk result (λ a. action_code (table_spec table.now) locals.new.items a ≡ left_plan (table_spec table.now) (calling_of call.entry.value) (calling_of call.entry.value).operation.result_type slot locals.old.items) }
    ensures busy { IfOk result (λ a. busy a ≤ 1) }
    ensures falls { IfOk result (λ a. height a ≤ 2) }
{
    match slot {
        Slot::Held(value) => left_with_value(alloc, table, locals, call, value),
        Slot::Unset => left_without(alloc, locals, call),
    }
}

/// What follows a body that left no value: only a constructor owes no result that is declared.
fn left_without<'t>(
    alloc: Global,
    locals: &mut Vec<(Name, Slot)>,
    call: Box<Calling<'t>>,
) -> Result<Action<'t>, OutOfMemory>
    ensures same { IfOk result (λ a. (spec : SpecTree) → action_code spec locals.new.items a ≡ left_plan spec (calling_of call.entry.value) (calling_of call.entry.value).operation.result_type Unset locals.old.items) }
    ensures busy { IfOk result (λ a. busy a ≤ 1) }
    ensures falls { IfOk result (λ a. height a ≤ 2) }
{
    let operation = call.operation;
    match &operation.result_type {
        None => result_given(alloc, locals, call, Slot::Unset),
        Some(_) => unless_due(alloc, locals, call),
    }
}

/// A result that is due did not come.
fn unless_due<'t>(
    alloc: Global,
    locals: &mut Vec<(Name, Slot)>,
    call: Box<Calling<'t>>,
) -> Result<Action<'t>, OutOfMemory>
    ensures same { IfOk result (λ a. (spec : SpecTree) → action_code spec locals.new.items a ≡ due_plan (calling_of call.entry.value) (constructor_call (calling_of call.entry.value)) locals.old.items) }
    ensures busy { IfOk result (λ a. busy a ≤ 1) }
    ensures falls { IfOk result (λ a. height a ≤ 2) }
{
    if is_constructor(&call) {
        result_given(alloc, locals, call, Slot::Unset)
    } else {
        Ok(Action::Fail(RunFault::NoReturn, call.place))
    }
}

/// Whether the operation has the name of its class.
fn is_constructor(call: &Calling<'_>) -> bool
    ensures { result ≡ constructor_call (calling_of call.now) }
{
    call.op.name == call.op.class
}

/// What follows a body that left a value: it is tested. No body of an operation stands inside a test of a type.
fn left_with_value<'t>(
    alloc: Global,
    table: &'t ClassTable,
    locals: &mut Vec<(Name, Slot)>,
    call: Box<Calling<'t>>,
    value: Value,
) -> Result<Action<'t>, OutOfMemory>
    ensures same { IfOk result (λ a. action_code (table_spec table.now) locals.new.items a ≡ left_plan (table_spec table.now) (calling_of call.entry.value) (calling_of call.entry.value).operation.result_type (Held value) locals.old.items) }
    ensures busy { IfOk result (λ a. busy a ≤ 1) }
    ensures falls { IfOk result (λ a. height a ≤ 2) }
{
    let operation = call.operation;
    let Some(declared) = &operation.result_type else {
        return Ok(Action::Fail(RunFault::TypeFault, call.place));
    };
    let tested = result_tested(alloc, table, locals, &call, declared, value)?;
    tested_result(alloc, locals, call, tested)
}

/// The test of the result against a type.
fn result_tested<'t>(
    alloc: Global,
    table: &'t ClassTable,
    locals: &mut Vec<(Name, Slot)>,
    call: &Calling<'t>,
    declared: &'t TypeExpr,
    value: Value,
) -> Result<Tested<'t>, OutOfMemory>
    ensures { IfOk result (λ t. (asker : Asker) → tested_code (under (table_spec table.entry.now) asker) call.now.place locals.new.items t ≡ fitted_plan (table_spec table.entry.now) no_nest (Some call.now.op.class) (type_view declared.entry.now) call.now.place value locals.old.items) }
{
    let class = Some(call.op.class);
    let nest = Nest::none();
    let place = call.place;
    fitted(alloc, table, locals, nest, class, declared, place, value)
}

/// What is done behind the test of the result. A fault stands at the call.
fn tested_result<'t>(
    alloc: Global,
    locals: &mut Vec<(Name, Slot)>,
    call: Box<Calling<'t>>,
    tested: Tested<'t>,
) -> Result<Action<'t>, OutOfMemory>
    ensures same { IfOk result (λ a. (spec : SpecTree) → action_code spec locals.new.items a ≡ bind (tested_code (of_thread spec) call.entry.value.place locals.old.items tested.entry) (with_value call.entry.value.place (value_plan (calling_of call.entry.value)))) }
    ensures busy { IfOk result (λ a. busy a ≤ 1) }
    ensures falls { IfOk result (λ a. height a ≤ 2) }
{
    match tested {
        Tested::Gives(value) => result_given(alloc, locals, call, Slot::Held(value)),
        Tested::Fails(fault) => Ok(Action::Fail(fault, call.place)),
        Tested::Asks(here, tree, inner) => {
            Action::fit(alloc, here, tree, inner, Waiting::Leave(call))
        }
    }
}

/// What came fits the type of the result, where it is a value.
///
/// # Errors
/// Want of memory.
pub fn result_fits<'t>(
    alloc: Global,
    locals: &mut Vec<(Name, Slot)>,
    call: Box<Calling<'t>>,
    flow: Flow,
) -> Result<Action<'t>, OutOfMemory>
    ensures same { IfOk result (λ a. (spec : SpecTree) → action_code spec locals.new.items a ≡ with_value call.entry.value.place (value_plan (calling_of call.entry.value)) (flow_of flow locals.old.items)) }
    ensures busy { IfOk result (λ a. busy a ≤ 1) }
    ensures falls { IfOk result (λ a. height a ≤ 2) }
{
    match value_in(flow) {
        Came::Is(value) => result_given(alloc, locals, call, Slot::Held(value)),
        Came::Nothing => Ok(Action::Fail(RunFault::Undefined, call.place)),
        Came::Exits(value, from) => Ok(Action::Finish(Flow::Exited(value, from))),
    }
}

/// Whether `post` holds of a call with this result, where there is one, and then the call ends.
fn result_given<'t>(
    alloc: Global,
    locals: &mut Vec<(Name, Slot)>,
    call: Box<Calling<'t>>,
    slot: Slot,
) -> Result<Action<'t>, OutOfMemory>
    ensures same { IfOk result (λ a. (spec : SpecTree) → action_code spec locals.new.items a ≡ given_plan (calling_of call.entry.value) slot locals.old.items) }
    ensures busy { IfOk result (λ a. busy a ≤ 1) }
    ensures falls { IfOk result (λ a. height a ≤ 2) }
{
    let operation = call.operation;
    match &operation.post {
        None => Ok(finished(call, slot)),
        Some(post) => {
            let slot = with_result(alloc, locals, slot)?;
            let here = calling_here(&call);
            Ok(Action::Part(
                Task::Expr(here, post),
                Pending {
                    waiting: Waiting::Post(call, slot),
                },
            ))
        }
    }
}

/// The result stands among the locals of `post`, where one came.
fn with_result(
    alloc: Global,
    locals: &mut Vec<(Name, Slot)>,
    slot: Slot,
) -> Result<Slot, OutOfMemory>
    ensures same { IfOk result (λ s. s ≡ slot) }
    ensures among { IfOk result (λ s. locals.new.items ≡ locals.old.items ++ result_local slot) }
{
    match slot {
        Slot::Held(value) => {
            let value = value.share(alloc)?;
            push_shared(alloc, locals, result_name(), value.copy(alloc)?)?;
            Ok(Slot::Held(value))
        }
        Slot::Unset => Ok(Slot::Unset),
    }
}

/// What came of `post`: where it holds the call ends with its result.
pub fn post_came<'t>(call: Box<Calling<'t>>, slot: Slot, flow: Flow) -> Action<'t>
    ensures same { (spec : SpecTree) (locals : Locals) → action_code spec locals result ≡ with_value call.entry.value.place (on_truth call.entry.value.place (decided_plan (calling_of call.entry.value) slot)) (flow_of flow locals) }
    ensures busy { busy result ≤ 1 }
    ensures falls { height result ≤ 2 }
{
    match truth_in(flow) {
        Truth::Is(holds) => post_decided(call, slot, holds),
        Truth::Fails(fault) => Action::Fail(fault, call.place),
        Truth::Exits(value, from) => Action::Finish(Flow::Exited(value, from)),
    }
}

/// `post` holds, or does not.
fn post_decided<'t>(call: Box<Calling<'t>>, slot: Slot, holds: bool) -> Action<'t>
    ensures same { (spec : SpecTree) (locals : Locals) → action_code spec locals result ≡ decided_plan (calling_of call.entry.value) slot holds locals }
    ensures busy { busy result ≤ 0 }
    ensures falls { height result ≤ 2 }
{
    if holds {
        finished(call, slot)
    } else {
        Action::Fail(RunFault::Post, call.place)
    }
}

/// The call asks to finish, with its result, or with the new object of a constructor.
fn finished<'t>(call: Box<Calling<'t>>, slot: Slot) -> Action<'t>
    ensures same { (spec : SpecTree) (locals : Locals) → action_code spec locals result ≡ finished_plan (calling_of call.entry.value) slot locals }
    ensures busy { busy result ≤ 0 }
    ensures falls { height result ≤ 2 }
{
    let mut call = call;
    let slot = match call.take_gives() {
        Some(object) => Slot::Held(object),
        None => slot,
    };
    Action::Ask(Asking::Finish(call.me, call.op, Flow::Gave(slot)))
}
