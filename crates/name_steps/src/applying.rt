// Applications.

ghost use Rattle.std.specs.Prelude.{◌≡◌, [], None, IfOk};
ghost use Rattle.vdm_kinds.specs.declared.operator.Operator.TheVariants.{LookUp};
ghost use Rattle.expr_tree.specs.View.{view_of, boxed_view, expr_trees, views_of};
ghost use Rattle.node_meaning.specs.Envs.{Locals, local_named};
ghost use Rattle.node_meaning.specs.Expressions.{own_class, looked_up, called_or_looked_up, applied_or_called, name_applied, qualified_applied, application};
ghost use Rattle.node_meaning.specs.Functions.{application_of};
ghost use Rattle.node_meaning.specs.Needs.{Asker, Setting};
ghost use Rattle.node_meaning.specs.Strict.{two_operands, with_others, make};
ghost use Rattle.node_meaning.specs.Expressions.{bare_call};
ghost use Rattle.eval_data.specs.Parts.{here_of, wanted_of};
ghost use Rattle.eval_data.specs.Steps.{code_of, use_of};
ghost use Rattle.value_steps.specs.Further.{gathered_code};
ghost use Rattle.name_steps.specs.Applied.{applied_view, applied_plan};
ghost use Rattle.name_steps.specs.Settings.{set};

use crate::applied::{Applied, applied_of};
use crate::argument_list::count_of;
use crate::calling::called_with;
use crate::homes::{object_class, operation_here};
use crate::look_ups::{function_in, operation_in, own_named};
use crate::parts::boxed_part;
use crate::slots::local_slot;
use eval_data::{Collecting, Frame, Here, Parts, Step, Strict, Then, Use, Wanted};
use expr_tree::Expr;
use spec_table::ClassTable;
use std::alloc::Global;
use value_steps::{Gathered, collected};
use vdm_kinds::{Name, OpRef, Operator, OutOfMemory, Place, RunFault};
use vdm_values::Slot;

/// A call whose value is not wanted: only an application is one.
pub fn bare_call<'t>(
    alloc: Global,
    table: &ClassTable,
    locals: &[(Name, Slot)],
    here: Here<'t>,
    tree: &'t Expr,
) -> Result<Gathered<'t>, OutOfMemory>
    ensures { IfOk result (λ g. (asker : Asker) → gathered_code (set table.now asker) locals.now g ≡ bare_call (set table.now asker) (here_of here.entry) locals.now (view_of tree.now)) }
{
    match tree {
        Expr::Apply(head, arguments, place) => application(
            alloc,
            table,
            locals,
            here,
            head,
            arguments,
            *place,
            Wanted::Nothing,
        ),
        _ => Ok(Gathered::Part(Step::Fail(RunFault::TypeFault, tree.place()))),
    }
}

/// What an application does, by what is applied.
pub fn application<'t>(
    alloc: Global,
    table: &ClassTable,
    locals: &[(Name, Slot)],
    here: Here<'t>,
    head: &'t Box<Expr>,
    arguments: &'t Vec<Expr>,
    place: Place,
    wanted: Wanted,
) -> Result<Gathered<'t>, OutOfMemory>
    ensures { IfOk result (λ g. (asker : Asker) → gathered_code (set table.now asker) locals.now g ≡ application (set table.now asker) (here_of here.entry) (boxed_view head.now) (expr_trees (views_of arguments.now.items)) place (wanted_of wanted) locals.now) }
{
    let applied = applied_of(head);
    application_of(
        alloc, table, locals, here, head, applied, arguments, place, wanted,
    )
}

/// Of a member the value is evaluated first.
fn application_of<'t>(
    alloc: Global,
    table: &ClassTable,
    locals: &[(Name, Slot)],
    here: Here<'t>,
    head: &'t Box<Expr>,
    applied: Applied<'t>,
    arguments: &'t Vec<Expr>,
    place: Place,
    wanted: Wanted,
) -> Result<Gathered<'t>, OutOfMemory>
    ensures { IfOk result (λ g. (asker : Asker) → gathered_code (set table.now asker) locals.now g ≡ applied_plan (set table.now asker) (here_of here.entry) (boxed_view head.now) (applied_view applied.entry) (expr_trees (views_of arguments.now.items)) place (wanted_of wanted) locals.now) }
{
    match applied {
        Applied::Name(name) => name_applied(
            alloc, table, locals, here, head, name, arguments, place, wanted,
        ),
        Applied::Qualified(class, name) => qualified_applied(
            alloc, table, here, head, class, name, arguments, place, wanted,
        ),
        Applied::Member(target, what, dot) => {
            let used = Use::CallThrough(here, what, arguments, dot, wanted);
            Ok(Gathered::Part(boxed_part(here, target, Frame::With(used, place))))
        }
        Applied::Value => looked_up(alloc, here, head, arguments, place),
    }
}

/// A local hides functions and operations.
fn name_applied<'t>(
    alloc: Global,
    table: &ClassTable,
    locals: &[(Name, Slot)],
    here: Here<'t>,
    head: &'t Box<Expr>,
    name: Name,
    arguments: &'t Vec<Expr>,
    place: Place,
    wanted: Wanted,
) -> Result<Gathered<'t>, OutOfMemory>
    ensures { IfOk result (λ g. (asker : Asker) → gathered_code (set table.now asker) locals.now g ≡ name_applied (set table.now asker) (here_of here.entry) (boxed_view head.now) name (expr_trees (views_of arguments.now.items)) place (wanted_of wanted) (local_named locals.now name) locals.now) }
{
    match local_slot(locals, name) {
        Some(_) => looked_up(alloc, here, head, arguments, place),
        None => hidden_by_none(alloc, table, here, head, name, arguments, place, wanted),
    }
}

/// A name that no local has.
fn hidden_by_none<'t>(
    alloc: Global,
    table: &ClassTable,
    here: Here<'t>,
    head: &'t Box<Expr>,
    name: Name,
    arguments: &'t Vec<Expr>,
    place: Place,
    wanted: Wanted,
) -> Result<Gathered<'t>, OutOfMemory>
    ensures { IfOk result (λ g. (asker : Asker) (locals : Locals) → gathered_code (set table.now asker) locals g ≡ name_applied (set table.now asker) (here_of here.entry) (boxed_view head.now) name (expr_trees (views_of arguments.now.items)) place (wanted_of wanted) None locals) }
{
    let count = count_of(arguments)?;
    let function = function_in(table, here.scope, name, count);
    let op = own_named(table, here.scope, object_class(here), name, count);
    applied_or_called(
        alloc, table, here, head, arguments, function, op, place, wanted,
    )
}

/// What a name means in the class of another name.
fn qualified_applied<'t>(
    alloc: Global,
    table: &ClassTable,
    here: Here<'t>,
    head: &'t Box<Expr>,
    class: Name,
    name: Name,
    arguments: &'t Vec<Expr>,
    place: Place,
    wanted: Wanted,
) -> Result<Gathered<'t>, OutOfMemory>
    ensures { IfOk result (λ g. (asker : Asker) (locals : Locals) → gathered_code (set table.now asker) locals g ≡ qualified_applied (set table.now asker) (here_of here.entry) (boxed_view head.now) class name (expr_trees (views_of arguments.now.items)) place (wanted_of wanted) locals) }
{
    let count = count_of(arguments)?;
    let function = function_in(table, Some(class), name, count);
    let op = operation_in(table, Some(class), name, count);
    applied_or_called(
        alloc, table, here, head, arguments, function, op, place, wanted,
    )
}

/// A name that means a function is applied to the arguments; else it may mean this operation.
fn applied_or_called<'t>(
    alloc: Global,
    table: &ClassTable,
    here: Here<'t>,
    head: &'t Box<Expr>,
    arguments: &'t Vec<Expr>,
    function: Option<OpRef>,
    op: Option<OpRef>,
    place: Place,
    wanted: Wanted,
) -> Result<Gathered<'t>, OutOfMemory>
    ensures { IfOk result (λ g. (asker : Asker) (locals : Locals) → gathered_code (set table.now asker) locals g ≡ applied_or_called (set table.now asker) (here_of here.entry) (boxed_view head.now) (expr_trees (views_of arguments.now.items)) function op place (wanted_of wanted) locals) }
{
    match function {
        Some(function) => applied(alloc, here, function, arguments, place),
        None => {
            let object = operation_here(table, here, op)?;
            called_or_looked_up(alloc, here, head, arguments, object, op, place, wanted)
        }
    }
}

/// The arguments of a function, and then the function.
fn applied<'t>(
    alloc: Global,
    here: Here<'t>,
    function: OpRef,
    arguments: &'t Vec<Expr>,
    place: Place,
) -> Result<Gathered<'t>, OutOfMemory>
    ensures { IfOk result (λ g. (setting : Setting) (locals : Locals) → gathered_code setting locals g ≡ application_of setting.spec (here_of here.entry) function (expr_trees (views_of arguments.now.items)) place locals) }
{
    let then = Then::Applies(function, arguments);
    let done = Vec::new(alloc);
    collected(alloc, here, place, Parts::Items(arguments, 0), done, then)
}

/// A name is called where it means an operation that has an object to run on, and else looked up in.
fn called_or_looked_up<'t>(
    alloc: Global,
    here: Here<'t>,
    head: &'t Box<Expr>,
    arguments: &'t Vec<Expr>,
    object: Option<u32>,
    op: Option<OpRef>,
    place: Place,
    wanted: Wanted,
) -> Result<Gathered<'t>, OutOfMemory>
    ensures { IfOk result (λ g. (setting : Setting) (locals : Locals) → gathered_code setting locals g ≡ called_or_looked_up setting (here_of here.entry) (boxed_view head.now) (expr_trees (views_of arguments.now.items)) object op place (wanted_of wanted) locals) }
{
    match (object, op) {
        (Some(number), Some(op)) => {
            let own = own_class(op, here.own);
            called_with(alloc, here, arguments, number, own, op, place, wanted)
        }
        _ => looked_up(alloc, here, head, arguments, place),
    }
}

/// The class of the object on which the node stands; without one only a static operation is called, which sees none.
fn own_class(op: OpRef, own: Option<Name>) -> Name
    ensures { result ≡ own_class op own }
{
    match own {
        Some(own) => own,
        None => op.class,
    }
}

/// What is looked up: in one place alone.
fn looked_up<'t>(
    alloc: Global,
    here: Here<'t>,
    head: &'t Box<Expr>,
    arguments: &'t Vec<Expr>,
    place: Place,
) -> Result<Gathered<'t>, OutOfMemory>
    ensures { IfOk result (λ g. (setting : Setting) (locals : Locals) → gathered_code setting locals g ≡ looked_up (here_of here.entry) (boxed_view head.now) (expr_trees (views_of arguments.now.items)) place locals) }
{
    if arguments.len() != 1 {
        return Ok(Gathered::Part(Step::Fail(RunFault::TypeFault, place)));
    }
    let used = argument_used(alloc, here, arguments, place)?;
    Ok(Gathered::Part(boxed_part(here, head, Frame::With(used, place))))
}

/// The value in which something is looked up stands before that of the argument.
fn argument_used<'t>(
    alloc: Global,
    here: Here<'t>,
    arguments: &'t Vec<Expr>,
    place: Place,
) -> Result<Use<'t>, OutOfMemory>
    ensures { IfOk result (λ used. (setting : Setting) → use_of setting used place ≡ with_others (here_of here.entry) place (expr_trees (views_of arguments.now.items)) [] (make (two_operands LookUp) place)) }
{
    let collecting = Collecting {
        here,
        place,
        rest: Parts::Items(arguments, 0),
        done: Vec::new(alloc),
        then: Then::Make(Strict::TwoOperands(Operator::LookUp)),
    };
    Ok(Use::Collect(Box::new(alloc, collecting)?))
}
