// New objects.

ghost use Rattle.std.specs.Prelude.{◌≡◌, ◌≤◌, ◌+◌, IfOk, option_map, Box as BoxOf};
ghost use Rattle.std.specs.Borrow.{Bor};
ghost use Rattle.std.specs.declared.alloc.Global.{Global};
ghost use Rattle.abstract_syntax.specs.Values.{object as object_tree};
ghost use Rattle.node_meaning.specs.Envs.{initialising as initialising_in};
ghost use Rattle.node_meaning.specs.Names.{operation_definition, variable_definition, variables_of as variables_in};
ghost use Rattle.expr_tree.specs.View.{boxed_view};
ghost use Rattle.expr_tree.specs.declared.expr.Expr.{Expr as ExprOf};
ghost use Rattle.stmt_meaning.specs.Objects.{constructed as constructed_plan, constructor_named as constructor_in, created as created_plan, initial_of as initial_in, make_object as make_object_plan, new_object as object_plan};
ghost use Rattle.spec_table.specs.Tables.{table_spec};
ghost use Rattle.eval_data.specs.Parts.{here_of, flow_of};
ghost use Rattle.step_data.specs.Actions.{action_code, busy, height, most};
ghost use Rattle.step_data.specs.Callings.{initialisers, initial_of as initial_plan, making_of};

use crate::testing::test_slots;
use call_steps::called;
use eval_data::{Flow, Here, Nest};
use name_steps::variables_of;
use run_journal::Answer;
use spec_table::ClassTable;
use std::alloc::Global;
use std::mem;
use step_data::{Action, Creating, Making, Pending, Task, Waiting};
use vdm_kinds::{Name, OpRef, OutOfMemory, Place, RunFault, VarRef};
use vdm_tree::Expr;
use vdm_values::{Node, Slot, Value};

/// A new object: its initialisers are evaluated, with the locals put aside.
pub(crate) fn new_object<'t>(
    alloc: Global,
    table: &'t ClassTable,
    locals: &mut Vec<(Name, Slot)>,
    object: Creating,
) -> Result<Action<'t>, OutOfMemory>
    ensures same { IfOk result (λ a. action_code (table_spec table.now) locals.new.items a ≡ object_plan (table_spec table.now) (making_of object) (variables_in (table_spec table.now) object.class) locals.old.items) }
    ensures busy { IfOk result (λ a. busy a ≤ 1) }
    ensures falls { IfOk result (λ a. height a ≤ 7 + most) }
{
    let Some(variables) = variables_of(table, object.class) else {
        return Ok(Action::Fail(RunFault::Undefined, object.place));
    };
    let object = Box::new(alloc, object)?;
    let making = Making {
        object,
        variables,
        left: variables,
        slots: Vec::new(alloc),
        saved: mem::replace(locals, Vec::new(alloc)),
    };
    initialise(alloc, table, locals, Box::new(alloc, making)?)
}

/// The initialisers that are left, behind the slots that were made.
#[tactic(auto, using(crate::proofs::Fitting::next_initialiser))]
fn initialise<'t>(
    alloc: Global,
    table: &'t ClassTable,
    locals: &mut Vec<(Name, Slot)>,
    making: Box<Making<'t>>,
) -> Result<Action<'t>, OutOfMemory>
    ensures same { IfOk result (λ a. action_code (table_spec table.now) locals.new.items a ≡ initialisers (table_spec table.now) making.entry.value) }
    ensures busy { IfOk result (λ a. busy a ≤ 1) }
    ensures falls { IfOk result (λ a. height a ≤ 7 + most) }
{
    let mut making = making;
    while let Some((var, left)) = making.left.split_first() {
        making.left = left;
        if let Some(initial) = initial_of(table, *var) {
            *locals = Vec::new(alloc);
            let here = initialising(making.object.class, var.class);
            return Ok(Action::Part(
                Task::Expr(here, initial),
                Pending {
                    waiting: Waiting::Initial(making),
                },
            ));
        }
        making.slots.push(Slot::Unset)?;
    }
    make_object(alloc, table, locals, making)
}

/// The initialiser of a variable.
fn initial_of(table: &ClassTable, var: VarRef) -> Option<&Box<Expr>>
    ensures { option_map (λ (e : Bor (BoxOf ExprOf Global)). boxed_view e.now) result ≡ initial_in (variable_definition (table_spec table.now) var) }
{
    match table.variable(&var) {
        Some(definition) => match &definition.initial {
            Some(initial) => Some(initial),
            None => None,
        },
        None => None,
    }
}

/// Where the initialisers of a class stand, for a new object of the class that comes first.
fn initialising<'t>(own: Name, class: Name) -> Here<'t>
    ensures { here_of result ≡ initialising_in own class }
{
    Here {
        scope: Some(class),
        own: Some(own),
        me: None,
        held: None,
        nest: Nest::none(),
    }
}

/// What an initialiser gives, and then those behind it.
///
/// # Errors
/// Want of memory.
pub fn initialised<'t>(
    alloc: Global,
    table: &'t ClassTable,
    locals: &mut Vec<(Name, Slot)>,
    making: Box<Making<'t>>,
    flow: Flow,
) -> Result<Action<'t>, OutOfMemory>
    ensures same { IfOk result (λ a. action_code (table_spec table.now) locals.new.items a ≡ initial_plan (table_spec table.now) making.entry.value (flow_of flow locals.old.items)) }
    ensures busy { IfOk result (λ a. busy a ≤ 1) }
    ensures falls { IfOk result (λ a. height a ≤ 7 + most) }
{
    let mut making = making;
    match flow {
        Flow::Gave(Slot::Held(value)) => {
            making.slots.push(Slot::Held(value))?;
            initialise(alloc, table, locals, making)
        }
        Flow::Gave(Slot::Unset) | Flow::Next => {
            Ok(Action::Fail(RunFault::Undefined, making.object.place))
        }
        Flow::Returned(_slot) => Ok(Action::Fail(RunFault::Undefined, making.object.place)),
        Flow::Exited(value, from) => {
            *locals = mem::replace(&mut making.saved, Vec::new(alloc));
            Ok(Action::Finish(Flow::Exited(value, from)))
        }
    }
}

/// Once all initialisers are evaluated their types and the invariants of the object are tested, among the locals of the node again, and
/// then the object is asked for.
fn make_object<'t>(
    alloc: Global,
    table: &'t ClassTable,
    locals: &mut Vec<(Name, Slot)>,
    making: Box<Making<'t>>,
) -> Result<Action<'t>, OutOfMemory>
    ensures same { IfOk result (λ a. action_code (table_spec table.now) locals.new.items a ≡ make_object_plan (table_spec table.now) (making_of making.entry.value.object.value) making.entry.value.saved.items making.entry.value.variables.now making.entry.value.slots.items) }
    ensures busy { IfOk result (λ a. busy a ≤ 1) }
    ensures falls { IfOk result (λ a. height a ≤ 7 + most) }
{
    let mut making = making;
    *locals = mem::replace(&mut making.saved, Vec::new(alloc));
    test_slots(alloc, table, locals, making, 0)
}

/// The object that was made: its constructor is called, where there is one.
///
/// # Errors
/// Want of memory.
pub fn created<'t>(
    alloc: Global,
    table: &'t ClassTable,
    locals: &mut Vec<(Name, Slot)>,
    object: Box<Creating>,
    answer: Answer,
) -> Result<Action<'t>, OutOfMemory>
    ensures same { IfOk result (λ a. action_code (table_spec table.now) locals.new.items a ≡ created_plan (table_spec table.now) (making_of object.value) locals.old.items answer) }
    ensures falls { IfOk result (λ a. height a ≤ 6 + most) }
{
    match answer {
        Answer::Object(number) => constructed(alloc, table, locals, object, number),
        _ => Ok(Action::Fail(RunFault::Undefined, object.place)),
    }
}

/// The constructor of the new object of this number is called; without one it is the value.
fn constructed<'t>(
    alloc: Global,
    table: &'t ClassTable,
    locals: &mut Vec<(Name, Slot)>,
    object: Box<Creating>,
    number: u32,
) -> Result<Action<'t>, OutOfMemory>
    ensures same { IfOk result (λ a. action_code (table_spec table.now) locals.new.items a ≡ constructed_plan (table_spec table.now) (making_of object.value) number (operation_definition (table_spec table.now) (constructor_in (making_of object.value))) locals.old.items) }
    ensures falls { IfOk result (λ a. height a ≤ 6 + most) }
{
    let class = object.class;
    let place = object.place;
    let value = object_value(number, class);
    let op = constructor_named(&object)?;
    let Some(operation) = table.operation(&op) else {
        return Ok(Action::Finish(Flow::Gave(Slot::Held(value))));
    };
    let (arguments, places) = Box::into_inner(object).into_arguments();
    let gives = Some(value);
    called(
        alloc, table, locals, number, class, op, operation, arguments, places, place, gives,
    )
}

/// An object of a class, as a value.
fn object_value(number: u32, class: Name) -> Value
    ensures { result ≡ object_tree number class }
{
    Value::new(Node::Object { number, class })
}

/// The operation that the class itself has under its own name, with so many parameters. More arguments than 32 bits count take more
/// memory than there is.
fn constructor_named(object: &Creating) -> Result<OpRef, OutOfMemory>
    ensures { IfOk result (λ op. op ≡ constructor_in (making_of object.now)) }
{
    let class = object.class;
    match u32::try_from(object.arguments.len()) {
        Ok(arity) => Ok(OpRef {
            class,
            name: class,
            arity,
        }),
        Err(_) => Err(OutOfMemory),
    }
}
