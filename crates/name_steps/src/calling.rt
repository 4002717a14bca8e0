// Calls on objects.

ghost use Rattle.std.specs.Prelude.{◌≡◌, [], IfOk, Some};
ghost use Rattle.abstract_syntax.specs.Expressions.{no_exprs, one_expr};
ghost use Rattle.expr_tree.specs.View.{expr_trees, view_of, views_of};
ghost use Rattle.value_operators.specs.Outcomes.{Gives, Outcome};
ghost use Rattle.node_meaning.specs.Envs.{Locals};
ghost use Rattle.node_meaning.specs.Expressions.{call_asked, call_need, called_at, called_of_class, called_on, called_through, called_with, field_applied, line_feed, looked_up_in, member_applied, no_such_call, places_of, printed_by, read_applied, variable_applied};
ghost use Rattle.node_meaning.specs.Needs.{Asker, Setting};
ghost use Rattle.node_meaning.specs.Strict.{collected};
ghost use Rattle.eval_data.specs.Parts.{here_of, need_of, wanted_of};
ghost use Rattle.eval_data.specs.Steps.{called_selected, code_of, IsLight};
ghost use Rattle.name_steps.specs.Settings.{set};
ghost use Rattle.value_steps.specs.Further.{gathered_code};

use crate::argument_list::{count_of, places_of};
use crate::homes::{found_home, variable_home};
use crate::look_ups::{class_for, operation_in, operation_reached, variable_in};
use eval_data::{After, Frame, Here, Need, Parts, Selected, Step, Strict, Then, Wanted};
use expr_tree::Expr;
use record_steps::field_value;
use spec_table::ClassTable;
use std::alloc::Global;
use value_steps::{Gathered, collected};
use vdm_kinds::{Halt, Name, OpRef, Operator, OutOfMemory, Place, RunFault, VarRef};
use vdm_values::{Node, Value, ValueList};

/// The name of the operation that adds a line feed, which is there before any text.
const PRINTLN: Name = Name(2);

/// What is selected of a value is applied.
pub fn called_selected<'t>(
    alloc: Global,
    table: &ClassTable,
    here: Here<'t>,
    what: Selected,
    arguments: &'t Vec<Expr>,
    dot: Place,
    wanted: Wanted,
    place: Place,
    value: Value,
) -> Result<Gathered<'t>, OutOfMemory>
    ensures { IfOk result (λ g. (asker : Asker) (locals : Locals) → gathered_code (set table.now asker) locals g ≡ called_selected (set table.now asker) (here_of here.entry) what (expr_trees (views_of arguments.now.items)) dot place (wanted_of wanted) value locals) }
{
    match what {
        Selected::Member(name) => called_through(
            alloc, table, here, name, arguments, dot, wanted, place, value,
        ),
        Selected::OfClass(class, name) => called_of_class(
            alloc, table, here, class, name, arguments, dot, wanted, place, value,
        ),
    }
}

/// A member of a value: one of an object, or a field of a record, which is looked up in.
fn called_through<'t>(
    alloc: Global,
    table: &ClassTable,
    here: Here<'t>,
    name: Name,
    arguments: &'t Vec<Expr>,
    dot: Place,
    wanted: Wanted,
    place: Place,
    value: Value,
) -> Result<Gathered<'t>, OutOfMemory>
    ensures { IfOk result (λ g. (asker : Asker) (locals : Locals) → gathered_code (set table.now asker) locals g ≡ called_through (set table.now asker) (here_of here.entry) name (expr_trees (views_of arguments.now.items)) dot place (wanted_of wanted) value locals) }
{
    match value.node() {
        Node::Object { number, class } => {
            let count = count_of(arguments)?;
            let op = operation_reached(table, here.scope, *class, name, count);
            let variable = variable_in(table, Some(*class), name);
            member_applied(
                alloc, table, here, arguments, dot, place, wanted, *number, *class, op, variable,
            )
        }
        Node::Rec {
            class,
            name: record,
            fields,
        } => {
            let found = field_value(alloc, table, name, *class, *record, fields.as_slice());
            field_applied(alloc, here, arguments, dot, place, found)
        }
        _ => no_such_call(alloc, here, arguments, place),
    }
}

/// ... by what its name means in the class of another name.
fn called_of_class<'t>(
    alloc: Global,
    table: &ClassTable,
    here: Here<'t>,
    class: Name,
    name: Name,
    arguments: &'t Vec<Expr>,
    dot: Place,
    wanted: Wanted,
    place: Place,
    value: Value,
) -> Result<Gathered<'t>, OutOfMemory>
    ensures { IfOk result (λ g. (asker : Asker) (locals : Locals) → gathered_code (set table.now asker) locals g ≡ called_of_class (set table.now asker) (here_of here.entry) class name (expr_trees (views_of arguments.now.items)) dot place (wanted_of wanted) value locals) }
{
    match value.node() {
        Node::Object { number, class: own } => {
            let count = count_of(arguments)?;
            let class = class_for(table, *own, class);
            let op = operation_in(table, class, name, count);
            let variable = variable_in(table, class, name);
            member_applied(
                alloc, table, here, arguments, dot, place, wanted, *number, *own, op, variable,
            )
        }
        _ => no_such_call(alloc, here, arguments, place),
    }
}

/// A member of an object of a class: an operation is called, a variable looked up in.
fn member_applied<'t>(
    alloc: Global,
    table: &ClassTable,
    here: Here<'t>,
    arguments: &'t Vec<Expr>,
    dot: Place,
    place: Place,
    wanted: Wanted,
    number: u32,
    own: Name,
    op: Option<OpRef>,
    variable: Option<VarRef>,
) -> Result<Gathered<'t>, OutOfMemory>
    ensures { IfOk result (λ g. (asker : Asker) (locals : Locals) → gathered_code (set table.now asker) locals g ≡ member_applied (set table.now asker) (here_of here.entry) (expr_trees (views_of arguments.now.items)) dot place (wanted_of wanted) number own op variable locals) }
{
    match op {
        Some(op) => called_at(
            alloc, table, here, arguments, number, own, op, place, wanted,
        ),
        None => variable_applied(alloc, table, here, arguments, place, dot, number, variable),
    }
}

/// A variable of the object of a number, where one was found, is read and looked up in.
fn variable_applied<'t>(
    alloc: Global,
    table: &ClassTable,
    here: Here<'t>,
    arguments: &'t Vec<Expr>,
    place: Place,
    dot: Place,
    number: u32,
    variable: Option<VarRef>,
) -> Result<Gathered<'t>, OutOfMemory>
    ensures { IfOk result (λ g. (asker : Asker) (locals : Locals) → gathered_code (set table.now asker) locals g ≡ variable_applied (set table.now asker) (here_of here.entry) (expr_trees (views_of arguments.now.items)) place dot number variable locals) }
{
    match variable {
        Some(variable) => {
            let home = variable_home(table, &variable, Some(number))?;
            let step = read_applied(here, arguments, place, dot, variable, home);
            Ok(Gathered::Part(step))
        }
        None => no_such_call(alloc, here, arguments, place),
    }
}

/// A variable of an object is read at the dot, and looked up in.
fn read_applied<'t>(
    here: Here<'t>,
    arguments: &'t Vec<Expr>,
    place: Place,
    dot: Place,
    variable: VarRef,
    home: Option<u32>,
) -> Step<'t>
    ensures { (setting : Setting) (locals : Locals) → code_of setting locals result ≡ read_applied setting (here_of here.entry) (expr_trees (views_of arguments.now.items)) place dot variable home locals }
{
    match home {
        Some(home) => {
            let after = After::LooksUp(here, arguments, place);
            Step::Need(Need::Read(home, variable), dot, after)
        }
        None => Step::Fail(RunFault::Undefined, dot),
    }
}

/// An operation that was found through the object of a number and its class.
fn called_at<'t>(
    alloc: Global,
    table: &ClassTable,
    here: Here<'t>,
    arguments: &'t Vec<Expr>,
    number: u32,
    own: Name,
    op: OpRef,
    place: Place,
    wanted: Wanted,
) -> Result<Gathered<'t>, OutOfMemory>
    ensures { IfOk result (λ g. (asker : Asker) (locals : Locals) → gathered_code (set table.now asker) locals g ≡ called_at (set table.now asker) (here_of here.entry) (expr_trees (views_of arguments.now.items)) number own (Some op) place (wanted_of wanted) locals) }
{
    let object = found_home(table, Some(op), Some(number))?;
    called_on(alloc, here, arguments, object, own, op, place, wanted)
}

/// A call of the operation on the object on which it runs, where there is one.
fn called_on<'t>(
    alloc: Global,
    here: Here<'t>,
    arguments: &'t Vec<Expr>,
    object: Option<u32>,
    own: Name,
    op: OpRef,
    place: Place,
    wanted: Wanted,
) -> Result<Gathered<'t>, OutOfMemory>
    ensures { IfOk result (λ g. (setting : Setting) (locals : Locals) → gathered_code setting locals g ≡ called_on setting (here_of here.entry) (expr_trees (views_of arguments.now.items)) object own (Some op) place (wanted_of wanted) locals) }
{
    match object {
        Some(number) => called_with(alloc, here, arguments, number, own, op, place, wanted),
        None => no_such_call(alloc, here, arguments, place),
    }
}

/// A call of an operation on an object: the arguments come first.
pub(crate) fn called_with<'t>(
    alloc: Global,
    here: Here<'t>,
    arguments: &'t Vec<Expr>,
    number: u32,
    own: Name,
    op: OpRef,
    place: Place,
    wanted: Wanted,
) -> Result<Gathered<'t>, OutOfMemory>
    ensures { IfOk result (λ g. (setting : Setting) (locals : Locals) → gathered_code setting locals g ≡ called_with setting (here_of here.entry) (expr_trees (views_of arguments.now.items)) number own op place (wanted_of wanted) locals) }
{
    let then = Then::Calls(number, own, op, arguments, wanted);
    let done = Vec::new(alloc);
    collected(alloc, here, place, Parts::Items(arguments, 0), done, then)
}

/// The call is asked for, with the values of the arguments.
pub fn call_asked<'t>(
    alloc: Global,
    number: u32,
    own: Name,
    op: OpRef,
    arguments: &Vec<Expr>,
    wanted: Wanted,
    place: Place,
    values: Vec<Value>,
) -> Result<Step<'t>, OutOfMemory>
    ensures { IfOk result (λ s. (setting : Setting) (locals : Locals) → code_of setting locals s ≡ call_asked setting number own op (places_of (expr_trees (views_of arguments.now.items))) place (wanted_of wanted) values.items locals) }
{
    let places = places_of(alloc, arguments)?;
    let need = call_need(alloc, number, own, op, places, values)?;
    Ok(Step::Need(need, place, After::Given(wanted)))
}

/// What a call needs: an operation of `IO` prints its arguments, and each other one is called.
fn call_need(
    alloc: Global,
    number: u32,
    own: Name,
    op: OpRef,
    places: Vec<Place>,
    values: Vec<Value>,
) -> Result<Need, OutOfMemory>
    ensures { IfOk result (λ need. need_of need ≡ call_need number own op values.items places.items) }
{
    if op.class.0 == Name::IO.0 {
        let printed = printed_by(alloc, op.name, values)?;
        return Ok(Need::Print(ValueList::from_vec(printed)));
    }
    Ok(Need::Call {
        object: number,
        class: own,
        op,
        args: ValueList::from_vec(values),
        places,
    })
}

/// What an operation of `IO` prints of its arguments: `println` adds a line feed.
fn printed_by(alloc: Global, name: Name, mut values: Vec<Value>) -> Result<Vec<Value>, OutOfMemory>
    ensures { IfOk result (λ printed. printed.items ≡ printed_by name values.items) }
{
    if name.0 == PRINTLN.0 {
        values.push(line_feed(alloc)?)?;
    }
    Ok(values)
}

/// A line feed, as what is printed.
fn line_feed(alloc: Global) -> Result<Value, OutOfMemory>
    ensures { IfOk result (λ v. v ≡ line_feed) }
{
    let mut items = Vec::new(alloc);
    items.push(Value::new(Node::Char('\n')))?;
    Ok(Value::new(Node::Seq(items)))
}

/// A field of a record is looked up in.
fn field_applied<'t>(
    alloc: Global,
    here: Here<'t>,
    arguments: &'t Vec<Expr>,
    dot: Place,
    place: Place,
    found: Result<Value, Halt<RunFault>>,
) -> Result<Gathered<'t>, OutOfMemory>
    ensures { IfOk result (λ g. (outcome : Outcome) → Gives found outcome → (setting : Setting) (locals : Locals) → gathered_code setting locals g ≡ field_applied (here_of here.entry) (expr_trees (views_of arguments.now.items)) place dot outcome locals) }
{
    match found {
        Ok(value) => {
            let step = looked_up_in(alloc, here, arguments, place, value)?;
            Ok(Gathered::Part(step))
        }
        Err(Halt::Of(kind)) => Ok(Gathered::Part(Step::Fail(kind, dot))),
        Err(Halt::OutOfMemory) => Err(OutOfMemory),
    }
}

/// What is looked up in a value: in one place alone.
pub(crate) fn looked_up_in<'t>(
    alloc: Global,
    here: Here<'t>,
    arguments: &'t Vec<Expr>,
    place: Place,
    value: Value,
) -> Result<Step<'t>, OutOfMemory>
    ensures same { IfOk result (λ s. (setting : Setting) (locals : Locals) → code_of setting locals s ≡ looked_up_in (here_of here.entry) (expr_trees (views_of arguments.now.items)) place value locals) }
    ensures light { IfOk result (λ s. IsLight s) }
{
    looked_up_among(alloc, here, arguments.as_slice(), place, value)
}

fn looked_up_among<'t>(
    alloc: Global,
    here: Here<'t>,
    arguments: &'t [Expr],
    place: Place,
    value: Value,
) -> Result<Step<'t>, OutOfMemory>
    ensures same { IfOk result (λ s. (setting : Setting) (locals : Locals) → code_of setting locals s ≡ looked_up_in (here_of here.entry) (expr_trees (views_of arguments.now)) place value locals) }
    ensures light { IfOk result (λ s. IsLight s) }
{
    match arguments {
        [] => Ok(Step::Fail(RunFault::TypeFault, place)),
        [argument] => looked_up_at(alloc, here, argument, place, value),
        [_, _, ..] => Ok(Step::Fail(RunFault::TypeFault, place)),
    }
}

/// The argument is evaluated, and looked up in the value.
fn looked_up_at<'t>(
    alloc: Global,
    here: Here<'t>,
    argument: &'t Expr,
    place: Place,
    value: Value,
) -> Result<Step<'t>, OutOfMemory>
    ensures same { IfOk result (λ s. (setting : Setting) (locals : Locals) → code_of setting locals s ≡ looked_up_in (here_of here.entry) (one_expr (view_of argument.now) no_exprs) place value locals) }
    ensures light { IfOk result (λ s. IsLight s) }
{
    let then = Then::Make(Strict::TwoOperands(Operator::LookUp));
    let mut done = Vec::new(alloc);
    done.push(value)?;
    let frame = Frame::collecting(alloc, here, place, Parts::None, done, then)?;
    Ok(Step::Part(here, argument, frame))
}

/// A call on what has no such operation is a type fault at the call, behind its arguments.
fn no_such_call<'t>(
    alloc: Global,
    here: Here<'t>,
    arguments: &'t Vec<Expr>,
    place: Place,
) -> Result<Gathered<'t>, OutOfMemory>
    ensures { IfOk result (λ g. (setting : Setting) (locals : Locals) → gathered_code setting locals g ≡ collected (here_of here.entry) place (expr_trees (views_of arguments.now.items)) [] (no_such_call place) locals) }
{
    let done = Vec::new(alloc);
    let parts = Parts::Items(arguments, 0);
    collected(alloc, here, place, parts, done, Then::NoSuchCall)
}
