// The arguments of a call, which are tested before it is asked for.

ghost use Rattle.std.specs.Prelude.{◌≡◌, ◌≤◌, ◌+◌, Some, List, IfOk, option_map, map, slice_get};
ghost use Rattle.std.specs.Borrow.{Bor};
ghost use Rattle.type_tree.specs.TypeView.{type_view};
ghost use Rattle.type_tree.specs.declared.type_expr.TypeExpr.{TypeExpr as TypeExprOf};
ghost use Rattle.abstract_syntax.specs.Values.{ValueTree};
ghost use Rattle.node_meaning.specs.Envs.{Locals};
ghost use Rattle.node_meaning.specs.Tasks.{with_value};
ghost use Rattle.stmt_meaning.specs.Calls.{called as called_plan, requested as requested_plan};
ghost use Rattle.stmt_meaning.specs.Olds.{Old as OldOf, old_variables as olds_plan, olds_of as olds_in_class, with_found};
ghost use Rattle.node_meaning.specs.Names.{variable_in};
ghost use Rattle.vdm_tree.specs.ClassView.{operation_view};
ghost use Rattle.spec_table.specs.Tables.{table_spec};
ghost use Rattle.eval_data.specs.Parts.{flow_of};
ghost use Rattle.step_data.specs.Actions.{action_code, busy, height, most};
ghost use Rattle.step_data.specs.Callings.{arguments_left as left_plan, call_operation, calling_of, giving_of, old_view};
ghost use Rattle.call_steps.specs.Trials.{maybe_old, tried_code};

use crate::trying::{Tried, value_tried};
use eval_data::Flow;
use fit_steps::all_shared;
use flow_values::{Came, value_in};
use name_steps::{variable_home, variable_in};
use old_names::old_names;
use spec_table::ClassTable;
use std::alloc::Global;
use step_data::{Action, Asking, Calling, Old, Requesting, Waiting};
use type_tree::TypeExpr;
use vdm_kinds::{Name, OpRef, OutOfMemory, Place, RunFault};
use vdm_tree::OpDef;
use vdm_values::{Slot, Value, ValueList};

/// Numbers of 32 bits count what stands with `~` in `post`.
const MOST_OLDS: usize = 4294967295;

/// An operation is called on an object with these arguments, each at its place, by the node at the place. A constructor gives the new
/// object. The arguments are tested first, and then the call is asked for.
///
/// # Errors
/// Want of memory.
pub fn called<'t>(
    alloc: Global,
    table: &'t ClassTable,
    locals: &mut Vec<(Name, Slot)>,
    me: u32,
    own: Name,
    op: OpRef,
    operation: &'t OpDef,
    arguments: ValueList,
    places: Vec<Place>,
    place: Place,
    gives: Option<Value>,
) -> Result<Action<'t>, OutOfMemory>
    ensures same { IfOk result (λ a. action_code (table_spec table.now) locals.new.items a ≡ called_plan (table_spec table.now) me own op (operation_view operation.now) arguments places.items place (giving_of gives) locals.old.items) }
    ensures busy { IfOk result (λ a. busy a ≤ 1) }
    ensures falls { IfOk result (λ a. height a ≤ 6 + most) }
{
    let arguments = all_shared(alloc, arguments.into_vec())?;
    let call = Calling {
        me,
        own,
        op,
        operation,
        arguments,
        place,
        gives,
        olds: Vec::new(alloc),
    };
    let call = Box::new(alloc, call)?;
    let requesting = Box::new(alloc, Requesting { call, places })?;
    arguments_left(alloc, table, locals, requesting, 0)
}

/// What came fits the type of a parameter, where it is a value: the other arguments are tested, and then the call is asked for.
///
/// # Errors
/// Want of memory.
pub fn argument_fits<'t>(
    alloc: Global,
    table: &'t ClassTable,
    locals: &mut Vec<(Name, Slot)>,
    requesting: Box<Requesting<'t>>,
    tested: usize,
    place: Place,
    flow: Flow,
) -> Result<Action<'t>, OutOfMemory>
    ensures same { IfOk result (λ a. action_code (table_spec table.now) locals.new.items a ≡ with_value place (λ v. left_plan (table_spec table.now) requesting.entry.value tested) (flow_of flow locals.old.items)) }
    ensures busy { IfOk result (λ a. busy a ≤ 1) }
    ensures falls { IfOk result (λ a. height a ≤ 6 + most) }
{
    match value_in(flow) {
        Came::Is(_value) => arguments_left(alloc, table, locals, requesting, tested),
        Came::Nothing => Ok(Action::Fail(RunFault::Undefined, place)),
        Came::Exits(value, from) => Ok(Action::Finish(Flow::Exited(value, from))),
    }
}

/// The arguments behind the first so many are tested, and then the call is asked for.
fn arguments_left<'t>(
    alloc: Global,
    table: &'t ClassTable,
    locals: &mut Vec<(Name, Slot)>,
    requesting: Box<Requesting<'t>>,
    tested: usize,
) -> Result<Action<'t>, OutOfMemory>
    ensures same { IfOk result (λ a. action_code (table_spec table.now) locals.new.items a ≡ left_plan (table_spec table.now) requesting.entry.value tested locals.old.items) }
    ensures busy { IfOk result (λ a. busy a ≤ 1) }
    ensures falls { IfOk result (λ a. height a ≤ 6 + most) }
{
    for index in tested..requesting.places.len() {
        let (tried, place) = next_tried(alloc, table, locals, &requesting, index)?;
        match tried {
            Tried::Passes => {}
            Tried::Fails(fault) => return Ok(Action::Fail(fault, place)),
            Tried::Asks(here, tree, inner) => {
                let waiting = Waiting::Argument(requesting, index + 1, place);
                return Action::fit(alloc, here, tree, inner, waiting);
            }
        }
    }
    requested(alloc, table, Box::into_inner(requesting).into_call())
}

/// The test of the argument of this number, and where it stands.
fn next_tried<'t>(
    alloc: Global,
    table: &'t ClassTable,
    locals: &mut Vec<(Name, Slot)>,
    requesting: &Requesting<'t>,
    index: usize,
) -> Result<(Tried<'t>, Place), OutOfMemory>
    ensures { IfOk result (λ t. tried_code (table_spec table.now) t.1 locals.new.items (left_plan (table_spec table.now) requesting.now (index + 1)) t.0 ≡ left_plan (table_spec table.now) requesting.now index locals.old.items) }
{
    match parameter_at(requesting, index) {
        None => Ok((Tried::Passes, requesting.call.place)),
        Some(declared) => match place_at(requesting, index) {
            None => Ok((Tried::Passes, requesting.call.place)),
            Some(place) => {
                let tried = placed_tried(alloc, table, locals, requesting, index, declared, place)?;
                Ok((tried, place))
            }
        },
    }
}

/// The test of the argument of this number against a type, at the place.
fn placed_tried<'t>(
    alloc: Global,
    table: &'t ClassTable,
    locals: &mut Vec<(Name, Slot)>,
    requesting: &Requesting<'t>,
    index: usize,
    declared: &'t TypeExpr,
    place: Place,
) -> Result<Tried<'t>, OutOfMemory>
    ensures { IfOk result (λ t. slice_get (call_operation requesting.now.call.value).parameters index ≡ Some (type_view declared.now) → slice_get requesting.now.places.items index ≡ Some place → tried_code (table_spec table.now) place locals.new.items (left_plan (table_spec table.now) requesting.now (index + 1)) t ≡ left_plan (table_spec table.now) requesting.now index locals.old.items) }
{
    match value_at(requesting, index) {
        None => Ok(Tried::Passes),
        Some(value) => {
            let class = requesting.call.op.class;
            value_tried(alloc, table, locals, place, class, declared, value)
        }
    }
}

fn place_at(requesting: &Requesting<'_>, index: usize) -> Option<Place>
    ensures { result ≡ slice_get requesting.now.places.items index }
{
    requesting.places.as_slice().get(index).copied()
}

fn parameter_at<'t>(requesting: &Requesting<'t>, index: usize) -> Option<&'t TypeExpr>
    ensures { option_map (λ (t : Bor TypeExprOf). type_view t.now) result ≡ slice_get (call_operation requesting.now.call.value).parameters index }
{
    let operation = requesting.call.operation;
    operation.parameters.as_slice().get(index)
}

fn value_at<'m>(requesting: &'m Requesting<'_>, index: usize) -> Option<&'m Value>
    ensures { option_map (λ (v : Bor ValueTree). v.now) result ≡ slice_get requesting.now.call.value.arguments index }
{
    requesting.call.arguments.as_slice().get(index)
}

/// The call is asked for, once it is known what stands with `~` in `post`.
fn requested<'t>(
    alloc: Global,
    table: &ClassTable,
    call: Box<Calling<'t>>,
) -> Result<Action<'t>, OutOfMemory>
    ensures same { IfOk result (λ a. (locals : Locals) → action_code (table_spec table.now) locals a ≡ requested_plan (table_spec table.now) (calling_of call.entry.value) locals) }
    ensures busy { IfOk result (λ a. busy a ≤ 0) }
    ensures falls { IfOk result (λ a. height a ≤ 6 + most) }
{
    let mut call = call;
    let olds = old_variables(alloc, table, &call)?;
    if olds.len() > MOST_OLDS {
        return Err(OutOfMemory);
    }
    call.set_olds(olds);
    Ok(Action::Ask(Asking::Request(call)))
}

/// The variables that stand with `~` in `post`.
fn old_variables(
    alloc: Global,
    table: &ClassTable,
    call: &Calling<'_>,
) -> Result<Vec<Old>, OutOfMemory>
    ensures { IfOk result (λ olds. map old_view olds.items ≡ olds_plan (table_spec table.now) (calling_of call.now)) }
{
    let operation = call.operation;
    let names = old_names(alloc, &operation.post)?;
    variables_of(alloc, table, call.me, call.op.class, names.as_slice())
}

/// What the names mean in a class, where they mean a variable, for a call on an object.
fn variables_of(
    alloc: Global,
    table: &ClassTable,
    me: u32,
    class: Name,
    names: &[Name],
) -> Result<Vec<Old>, OutOfMemory>
    ensures { IfOk result (λ olds. map old_view olds.items ≡ olds_in_class (table_spec table.now) me class names.now) }
{
    let mut olds = Vec::new(alloc);
    for name in names {
        if let Some(old) = variable_of(table, me, class, *name)? {
            olds.push(old)?;
        }
    }
    Ok(olds)
}

/// What one of them means.
fn variable_of(
    table: &ClassTable,
    me: u32,
    class: Name,
    name: Name,
) -> Result<Option<Old>, OutOfMemory>
    ensures { IfOk result (λ old. (olds : List OldOf) → maybe_old old olds ≡ with_found (table_spec table.now) me name (variable_in (table_spec table.now) (Some class) name) olds) }
{
    let Some(var) = variable_in(table, Some(class), name) else {
        return Ok(None);
    };
    match variable_home(table, &var, Some(me))? {
        Some(object) => Ok(Some(Old { name, object, var })),
        None => Ok(None),
    }
}
