// The parameters of a called operation, which meet the arguments.

ghost use Rattle.std.specs.Prelude.{◌≡◌, ◌≤◌, ◌∷◌, [], ◌++◌, Some, IfOk, MatchOption, drop, length};
ghost use Rattle.abstract_syntax.specs.Classes.{SpecTree};
ghost use Rattle.expr_tree.specs.View.{boxed_view};
ghost use Rattle.node_meaning.specs.Envs.{Locals};
ghost use Rattle.vdm_kinds.specs.declared.place.Place.{Place as PlaceOf};
ghost use Rattle.node_meaning.specs.Matching.{exprs_of, met};
ghost use Rattle.node_meaning.specs.Strict.{collected, with_others};
ghost use Rattle.stmt_meaning.specs.Calling.{calling_here as here_plan};
ghost use Rattle.stmt_meaning.specs.Calls.{bound as bound_plan, binds as binds_plan, pre_of as pre_plan};
ghost use Rattle.node_meaning.specs.Tasks.{Code, evaluated, fault};
ghost use Rattle.vdm_kinds.specs.declared.run_fault.RunFault.TheVariants.{NoMatch};
ghost use Rattle.bind_steps.specs.Attempts.{attempted};
ghost use Rattle.spec_table.specs.Tables.{table_spec};
ghost use Rattle.eval_data.specs.Parts.{boxed_list, flow_of, here_of};
ghost use Rattle.step_data.specs.Actions.{action_code, busy, height};
ghost use Rattle.step_data.specs.Callings.{binding_then, call_operation, calling_of};

use crate::bodies::pre_of;
use crate::places::calling_here;
use bind_steps::Attempt;
use eval_data::{Flow, Here};
use expr_tree::Expr;
use flow_values::{Came, value_in};
use function_steps::{givens_of, meet};
use spec_table::ClassTable;
use std::alloc::Global;
use step_data::{Action, Binding, Calling, Pending, Task, Waiting};
use vdm_kinds::{Name, OutOfMemory, RunFault};
use vdm_values::{Slot, Value};

/// The expressions in brackets in the patterns of the parameters come first, where there are any.
pub(crate) fn binds<'t>(
    alloc: Global,
    table: &ClassTable,
    locals: &mut Vec<(Name, Slot)>,
    call: Box<Calling<'t>>,
) -> Result<Action<'t>, OutOfMemory>
    ensures same { IfOk result (λ a. action_code (table_spec table.now) locals.new.items a ≡ binds_plan (table_spec table.now) (calling_of call.entry.value) locals.old.items) }
    ensures busy { IfOk result (λ a. busy a ≤ 1) }
    ensures falls { IfOk result (λ a. height a ≤ 1) }
{
    let operation = call.operation;
    let found = givens_of(alloc, operation.patterns.as_slice())?;
    let binding = Binding {
        call,
        found,
        next: 0,
        given: Vec::new(alloc),
    };
    next_bracket(alloc, table, locals, Box::new(alloc, binding)?)
}

/// The value of an expression in brackets came: the next one follows, or the parameters meet the arguments.
///
/// # Errors
/// Want of memory.
pub fn parameter_came<'t>(
    alloc: Global,
    table: &ClassTable,
    locals: &mut Vec<(Name, Slot)>,
    binding: Box<Binding<'t>>,
    flow: Flow,
) -> Result<Action<'t>, OutOfMemory>
    ensures same { IfOk result (λ a. action_code (table_spec table.now) locals.new.items a ≡ binding_then (table_spec table.now) binding.entry.value (flow_of flow locals.old.items)) }
    ensures busy { IfOk result (λ a. busy a ≤ 1) }
    ensures falls { IfOk result (λ a. height a ≤ 1) }
{
    match value_in(flow) {
        Came::Is(value) => bracket_came(alloc, table, locals, binding, value),
        Came::Nothing => Ok(Action::Fail(RunFault::Undefined, binding.call.place)),
        Came::Exits(value, from) => Ok(Action::Finish(Flow::Exited(value, from))),
    }
}

fn bracket_came<'t>(
    alloc: Global,
    table: &ClassTable,
    locals: &mut Vec<(Name, Slot)>,
    binding: Box<Binding<'t>>,
    value: Value,
) -> Result<Action<'t>, OutOfMemory>
    ensures same { IfOk result (λ a. action_code (table_spec table.now) locals.new.items a ≡ collected (here_plan (calling_of binding.entry.value.call.value)) binding.entry.value.call.value.place (exprs_of (drop binding.entry.value.next (boxed_list binding.entry.value.found.items))) (binding.entry.value.given.items ++ value ∷ []) (bound_plan (table_spec table.now) (calling_of binding.entry.value.call.value)) locals.old.items) }
    ensures busy { IfOk result (λ a. busy a ≤ 1) }
    ensures falls { IfOk result (λ a. height a ≤ 1) }
{
    let mut binding = binding;
    add_value(&mut binding, value)?;
    next_bracket(alloc, table, locals, binding)
}

fn add_value(binding: &mut Binding<'_>, value: Value) -> Result<(), OutOfMemory>
    ensures kept { IfOk result (λ _. binding.new ≡ record binding.old { given = binding.new.given }) }
    ensures added { IfOk result (λ _. binding.new.given.items ≡ binding.old.given.items ++ value ∷ []) }
{
    binding.given.push(value)?;
    Ok(())
}

/// The next of them is evaluated, or the parameters meet the arguments.
fn next_bracket<'t>(
    alloc: Global,
    table: &ClassTable,
    locals: &mut Vec<(Name, Slot)>,
    binding: Box<Binding<'t>>,
) -> Result<Action<'t>, OutOfMemory>
    ensures same { IfOk result (λ a. action_code (table_spec table.now) locals.new.items a ≡ collected (here_plan (calling_of binding.entry.value.call.value)) binding.entry.value.call.value.place (exprs_of (drop binding.entry.value.next (boxed_list binding.entry.value.found.items))) binding.entry.value.given.items (bound_plan (table_spec table.now) (calling_of binding.entry.value.call.value)) locals.old.items) }
    ensures busy { IfOk result (λ a. busy a ≤ 1) }
    ensures falls { IfOk result (λ a. height a ≤ 1) }
{
    match next_of(&binding) {
        Some((tree, next)) => Ok(bracket_part(binding, tree, next)),
        None => all_given(alloc, table, locals, binding),
    }
}

/// The expression in brackets that comes next, and the number behind it.
fn next_of<'t>(binding: &Binding<'t>) -> Option<(&'t Box<Expr>, usize)>
    ensures { MatchOption result (drop binding.now.next (boxed_list binding.now.found.items) ≡ []) (λ p. drop binding.now.next (boxed_list binding.now.found.items) ≡ boxed_view p.0.now ∷ drop p.1 (boxed_list binding.now.found.items)) }
{
    bracket_at(&binding.found, binding.next)
}

/// The expression at a number, and the number behind it.
fn bracket_at<'t>(found: &[&'t Box<Expr>], at: usize) -> Option<(&'t Box<Expr>, usize)>
    ensures { MatchOption result (drop at (boxed_list found.now) ≡ []) (λ p. drop at (boxed_list found.now) ≡ boxed_view p.0.now ∷ drop p.1 (boxed_list found.now)) }
{
    if at >= found.len() {
        return None;
    }
    Some((found[at], at + 1))
}

/// One of them is evaluated, behind which that of this number comes.
fn bracket_part<'t>(binding: Box<Binding<'t>>, tree: &'t Box<Expr>, next: usize) -> Action<'t>
    ensures same { (spec : SpecTree) (locals : Locals) → action_code spec locals result ≡ evaluated (here_plan (calling_of binding.entry.value.call.value)) locals (boxed_view tree.now) binding.entry.value.call.value.place (with_others (here_plan (calling_of binding.entry.value.call.value)) binding.entry.value.call.value.place (exprs_of (drop next (boxed_list binding.entry.value.found.items))) binding.entry.value.given.items (bound_plan spec (calling_of binding.entry.value.call.value))) }
    ensures busy { busy result ≤ 1 }
    ensures falls { height result ≤ 1 }
{
    let mut binding = binding;
    let here = binding_here(&binding);
    set_next(&mut binding, next);
    Action::Part(
        Task::Expr(here, tree),
        Pending {
            waiting: Waiting::Parameters(binding),
        },
    )
}

/// Where they stand.
fn binding_here<'t>(binding: &Binding<'t>) -> Here<'t>
    ensures { here_of result ≡ here_plan (calling_of binding.now.call.value) }
{
    calling_here(&binding.call)
}

fn set_next(binding: &mut Binding<'_>, next: usize)
    ensures { binding.new ≡ record binding.old { next = next } }
{
    binding.next = next;
}

/// All of them are there.
fn all_given<'t>(
    alloc: Global,
    table: &ClassTable,
    locals: &mut Vec<(Name, Slot)>,
    binding: Box<Binding<'t>>,
) -> Result<Action<'t>, OutOfMemory>
    ensures same { IfOk result (λ a. action_code (table_spec table.now) locals.new.items a ≡ bound_plan (table_spec table.now) (calling_of binding.entry.value.call.value) binding.entry.value.given.items locals.old.items) }
    ensures busy { IfOk result (λ a. busy a ≤ 1) }
    ensures falls { IfOk result (λ a. height a ≤ 1) }
{
    let (call, given) = Box::into_inner(binding).into_parts();
    bound(alloc, table, locals, call, given)
}

/// The parameters meet the arguments, with the values of the expressions in brackets in their patterns; then `pre` follows.
fn bound<'t>(
    alloc: Global,
    table: &ClassTable,
    locals: &mut Vec<(Name, Slot)>,
    call: Box<Calling<'t>>,
    given: Vec<Value>,
) -> Result<Action<'t>, OutOfMemory>
    ensures same { IfOk result (λ a. action_code (table_spec table.now) locals.new.items a ≡ bound_plan (table_spec table.now) (calling_of call.entry.value) given.items locals.old.items) }
    ensures busy { IfOk result (λ a. busy a ≤ 1) }
    ensures falls { IfOk result (λ a. height a ≤ 1) }
{
    let attempt = parameters_met(alloc, table, locals, &call, given)?;
    Ok(answered(call, locals.len(), attempt))
}

/// How the parameters meet the arguments.
fn parameters_met<'t>(
    alloc: Global,
    table: &ClassTable,
    locals: &mut Vec<(Name, Slot)>,
    call: &Calling<'t>,
    given: Vec<Value>,
) -> Result<Attempt, OutOfMemory>
    ensures { IfOk result (λ attempt. (place : PlaceOf) (matched missed : Locals → Code) → attempted place attempt matched missed locals.new.items ≡ met (table_spec table.now) (Some call.now.op.class) place (call_operation call.now).patterns call.now.arguments matched missed given.items locals.old.items) }
{
    let operation = call.operation;
    meet(
        alloc,
        table,
        locals,
        call.op.class,
        operation.patterns.as_slice(),
        call.arguments.as_slice(),
        given,
    )
}

/// What follows, by what came of the patterns, before so many locals.
fn answered<'t>(call: Box<Calling<'t>>, count: usize, attempt: Attempt) -> Action<'t>
    ensures same { (spec : SpecTree) (locals : Locals) → length locals ≡ count → action_code spec locals result ≡ attempted call.entry.value.place attempt (pre_plan spec (calling_of call.entry.value) (calling_of call.entry.value).operation.pre) (λ missed. fault NoMatch call.entry.value.place) locals }
    ensures busy { busy result ≤ 1 }
    ensures falls { height result ≤ 1 }
{
    match attempt {
        Attempt::Matched => pre_of(call, count),
        Attempt::Missed => Action::Fail(RunFault::NoMatch, call.place),
        Attempt::Fault(fault) => Action::Fail(fault, call.place),
    }
}
