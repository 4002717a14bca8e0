// What main does: the class objects, the whole expression, and its end.

ghost use Rattle.std.specs.Prelude.{◌≡◌, ◌≤◌, ◌<◌, ◌+◌, ◌-◌, ◌^◌, [], ◌∷◌, IfOk};
ghost use Rattle.abstract_syntax.specs.Classes.{SpecTree};
ghost use Rattle.node_meaning.specs.Envs.{Locals, outside as outside_of};
ghost use Rattle.vdm_legal.specs.State.{class_variables as class_variables_of};
ghost use Rattle.vdm_meaning.specs.Main.{make_class_objects as class_objects_plan, whole_expression as whole_task, ended as ended_plan};
ghost use Rattle.expr_tree.specs.View.{view_of};
ghost use Rattle.spec_table.specs.Tables.{table_spec};
ghost use Rattle.eval_data.specs.Parts.{here_of, flow_of};
ghost use Rattle.step_data.specs.Parts.{task_of};
ghost use Rattle.step_data.specs.Actions.{action_code, busy, height, most};
ghost use Rattle.step_data.specs.Callings.{class_behind, main_expression, statics_left};

use crate::statics::{cleared, evaluate_statics};
use eval_data::{Flow, Here, Nest};
use spec_table::ClassTable;
use std::alloc::Global;
use step_data::{Action, Asking, ClassMaking, Pending, Task, Waiting};
use vdm_kinds::{Name, OutOfMemory, VarRef};
use vdm_tree::Expr;
use vdm_values::Slot;

/// The class objects of these classes, the first of which has this number; and then the whole expression, and main's end. None of them
/// has locals.
pub fn make_class_objects<'t>(
    alloc: Global,
    table: &'t ClassTable,
    locals: &mut Vec<(Name, Slot)>,
    object: u32,
    classes: &'t [Name],
    tree: &'t Expr,
) -> Result<Action<'t>, OutOfMemory>
    ensures same { IfOk result (λ a. action_code (table_spec table.now) locals.new.items a ≡ class_objects_plan (table_spec table.now) object classes.now (main_expression (view_of tree.now))) }
    ensures busy { IfOk result (λ a. busy a ≤ 1) }
    ensures falls { IfOk result (λ a. height a ≤ 2 + (most - object)) }
{
    cleared(alloc, locals);
    match classes {
        [class, others @ ..] => {
            let making = begun(alloc, table, object, *class, others, tree);
            let action = evaluate_statics(alloc, table, locals, making)?;
            Ok(action)
        }
        [] => Ok(expression_begun(tree)),
    }
}

/// A class object, of whose static variables none has a slot yet.
fn begun<'t>(
    alloc: Global,
    table: &'t ClassTable,
    object: u32,
    class: Name,
    others: &'t [Name],
    tree: &'t Expr,
) -> ClassMaking<'t>
    ensures same { statics_left (table_spec table.now) result ≡ class_objects_plan (table_spec table.now) object (class ∷ others.now) (main_expression (view_of tree.now)) }
    ensures numbered { result.object ≡ object }
{
    let variables = class_variables(table, class);
    ClassMaking {
        object,
        class,
        variables,
        left: variables,
        slots: Vec::new(alloc),
        others,
        tree,
    }
}

/// The static variables of a class; none of a class that is not there.
fn class_variables(table: &ClassTable, class: Name) -> &[VarRef]
    ensures { result.now ≡ class_variables_of (table_spec table.now) class }
{
    table.statics(class)
}

/// Once a class object is made those behind it follow, and then the expression. Where 32 bits hold no further number, memory is wanting.
pub fn class_made<'t>(
    alloc: Global,
    table: &'t ClassTable,
    locals: &mut Vec<(Name, Slot)>,
    making: Box<ClassMaking<'t>>,
) -> Result<Action<'t>, OutOfMemory>
    ensures same { IfOk result (λ a. action_code (table_spec table.now) locals.new.items a ≡ class_behind (table_spec table.now) making.entry.value) }
    ensures falls { IfOk result (λ a. height a < 2 + (most - making.entry.value.object)) }
{
    let next = next_number(making.object)?;
    make_class_objects(alloc, table, locals, next, making.others, making.tree)
}

/// The number behind this one.
fn next_number(number: u32) -> Result<u32, OutOfMemory>
    ensures behind { IfOk result (λ next. next ≡ number + 1) }
    ensures bounded { IfOk result (λ next. next < 2 ^ 32) }
{
    match number.checked_add(1) {
        Some(next) => Ok(next),
        None => Err(OutOfMemory),
    }
}

/// The whole expression, and behind it main's end.
fn expression_begun<'t>(tree: &'t Expr) -> Action<'t>
    ensures same { (spec : SpecTree) → action_code spec [] result ≡ main_expression (view_of tree.now) }
    ensures busy { busy result ≤ 1 }
    ensures falls { height result ≤ 1 }
{
    Action::Part(
        whole_expression(tree),
        Pending {
            waiting: Waiting::End,
        },
    )
}

/// The whole expression: of a call no value is wanted.
fn whole_expression<'t>(tree: &'t Expr) -> Task<'t>
    ensures { task_of result [] ≡ whole_task (view_of tree.now) }
{
    match tree {
        Expr::Apply(_, _, _) => Task::Call(outside(), tree),
        _ => Task::Expr(outside(), tree),
    }
}

/// Where the expression of a run stands.
fn outside<'t>() -> Here<'t>
    ensures { here_of result ≡ outside_of }
{
    Here {
        scope: None,
        own: None,
        me: None,
        held: None,
        nest: Nest::none(),
    }
}

/// What is done with what came of the whole expression: main ends, or an exit leaves it.
pub fn ended<'t>(flow: Flow) -> Action<'t>
    ensures falls { height result ≤ 2 }
    ensures same { (spec : SpecTree) (locals : Locals) → action_code spec locals result ≡ ended_plan (flow_of flow locals) }
{
    match flow {
        Flow::Gave(slot) | Flow::Returned(slot) => Action::Ask(Asking::End(slot)),
        Flow::Next => Action::Ask(Asking::End(Slot::Unset)),
        Flow::Exited(value, place) => Action::Uncaught(value, place),
    }
}
