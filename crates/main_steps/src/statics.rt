// The initialisers of static variables.

ghost use Rattle.std.specs.Prelude.{◌≡◌, ◌≤◌, ◌<◌, ◌+◌, ◌-◌, [], IfOk, option_map, Box as BoxOf};
ghost use Rattle.std.specs.Borrow.{Bor};
ghost use Rattle.std.specs.declared.alloc.Global.{Global};
ghost use Rattle.abstract_syntax.specs.Classes.{SpecTree};
ghost use Rattle.abstract_syntax.specs.Expressions.{expr_place};
ghost use Rattle.expr_tree.specs.View.{boxed_view};
ghost use Rattle.expr_tree.specs.declared.expr.Expr.{Expr as ExprOf};
ghost use Rattle.plans.specs.Plans.{part};
ghost use Rattle.node_meaning.specs.Envs.{at, inside_class as inside_class_of, no_nest};
ghost use Rattle.node_meaning.specs.Names.{variable_definition};
ghost use Rattle.node_meaning.specs.Tasks.{expr_in};
ghost use Rattle.stmt_meaning.specs.Objects.{initial_of as initial_in};
ghost use Rattle.vdm_meaning.specs.Main.{came, object_of_class};
ghost use Rattle.spec_table.specs.Tables.{table_spec};
ghost use Rattle.eval_data.specs.Parts.{here_of, flow_of};
ghost use Rattle.step_data.specs.Actions.{action_code, busy, height, most};
ghost use Rattle.step_data.specs.Callings.{class_behind, static_given, statics_left};

use crate::testing::test_statics;
use eval_data::{Flow, Here, Nest};
use spec_table::ClassTable;
use std::alloc::Global;
use step_data::{Action, ClassMaking, Pending, Task, Waiting};
use vdm_kinds::{Name, OutOfMemory, Place, RunFault, VarRef};
use vdm_tree::Expr;
use vdm_values::{Slot, Value};

/// The initialisers that are left, behind the slots that were made.
#[tactic(auto, using(crate::proofs::Evaluating::next_initialiser))]
pub(crate) fn evaluate_statics<'t>(
    alloc: Global,
    table: &'t ClassTable,
    locals: &mut Vec<(Name, Slot)>,
    making: ClassMaking<'t>,
) -> Result<Action<'t>, OutOfMemory>
    ensures same { IfOk result (λ a. action_code (table_spec table.now) locals.new.items a ≡ statics_left (table_spec table.now) making.entry) }
    ensures busy { IfOk result (λ a. busy a ≤ 1) }
    ensures falls { IfOk result (λ a. height a ≤ 2 + (most - making.entry.object)) }
{
    let mut making = making;
    while let Some((var, left)) = making.left.split_first() {
        making.left = left;
        if let Some(initial) = initial_of(table, *var) {
            cleared(alloc, locals);
            let action = initialiser(alloc, making, var.class, initial)?;
            return Ok(action);
        }
        making.slots.push(Slot::Unset)?;
    }
    all_given(alloc, table, locals, making)
}

/// The initialiser of a variable of the class, and what is done with what it gives.
fn initialiser<'t>(
    alloc: Global,
    making: ClassMaking<'t>,
    class: Name,
    initial: &'t Box<Expr>,
) -> Result<Action<'t>, OutOfMemory>
    ensures same { IfOk result (λ a. (spec : SpecTree) → action_code spec [] a ≡ part (expr_in (at (inside_class_of class no_nest) []) (boxed_view initial.now)) (came (expr_place (boxed_view initial.now)) (static_given spec making.entry))) }
    ensures busy { IfOk result (λ a. busy a ≤ 1) }
    ensures falls { IfOk result (λ a. height a ≤ 1) }
{
    let place = place_of(initial);
    let waiting = Waiting::Static(Box::new(alloc, making)?, place);
    let task = Task::Expr(inside_class(class), initial);
    Ok(Action::Part(task, Pending { waiting }))
}

/// The initialiser of a variable.
fn initial_of(table: &ClassTable, var: VarRef) -> Option<&Box<Expr>>
    ensures { option_map (λ (e : Bor (BoxOf ExprOf Global)). boxed_view e.now) result ≡ initial_in (variable_definition (table_spec table.now) var) }
{
    match table.variable(&var) {
        Some(definition) => match &definition.initial {
            Some(initial) => Some(initial),
            None => None,
        },
        None => None,
    }
}

/// Where an initialiser stands.
pub(crate) fn place_of(initial: &Box<Expr>) -> Place
    ensures { result ≡ expr_place (boxed_view initial.now) }
{
    initial.place()
}

/// Whose names the initialisers of the static variables of a class see.
fn inside_class<'t>(class: Name) -> Here<'t>
    ensures { here_of result ≡ inside_class_of class no_nest }
{
    Here {
        scope: Some(class),
        own: None,
        me: None,
        held: None,
        nest: Nest::none(),
    }
}

/// There are no locals.
pub(crate) fn cleared(alloc: Global, locals: &mut Vec<(Name, Slot)>)
    ensures { locals.new.items ≡ [] }
{
    *locals = Vec::new(alloc);
}

/// Once all initialisers are evaluated their types are tested, and then the class object is made.
fn all_given<'t>(
    alloc: Global,
    table: &'t ClassTable,
    locals: &mut Vec<(Name, Slot)>,
    making: ClassMaking<'t>,
) -> Result<Action<'t>, OutOfMemory>
    ensures same { IfOk result (λ a. action_code (table_spec table.now) locals.new.items a ≡ object_of_class (table_spec table.now) making.entry.object making.entry.class making.entry.variables.now (class_behind (table_spec table.now) making.entry) making.entry.slots.items) }
    ensures busy { IfOk result (λ a. busy a ≤ 1) }
    ensures falls { IfOk result (λ a. height a ≤ 2 + (most - making.entry.object)) }
{
    test_statics(alloc, table, locals, Box::new(alloc, making)?, 0)
}

/// What the initialiser at the place gives, and then those behind it. An exit leaves main.
pub fn static_came<'t>(
    alloc: Global,
    table: &'t ClassTable,
    locals: &mut Vec<(Name, Slot)>,
    making: Box<ClassMaking<'t>>,
    place: Place,
    flow: Flow,
) -> Result<Action<'t>, OutOfMemory>
    ensures same { IfOk result (λ a. action_code (table_spec table.now) locals.new.items a ≡ came place (static_given (table_spec table.now) making.entry.value) (flow_of flow locals.old.items)) }
    ensures busy { IfOk result (λ a. busy a ≤ 1) }
    ensures falls { IfOk result (λ a. height a < 10 + most) }
{
    match flow {
        Flow::Gave(Slot::Held(value)) => value_given(alloc, table, locals, making, value),
        Flow::Gave(Slot::Unset) | Flow::Next => Ok(Action::Fail(RunFault::Undefined, place)),
        Flow::Returned(_slot) => Ok(Action::Fail(RunFault::Undefined, place)),
        Flow::Exited(value, from) => Ok(Action::Uncaught(value, from)),
    }
}

/// The value stands in the slot of its variable, and the initialisers behind it follow.
fn value_given<'t>(
    alloc: Global,
    table: &'t ClassTable,
    locals: &mut Vec<(Name, Slot)>,
    making: Box<ClassMaking<'t>>,
    value: Value,
) -> Result<Action<'t>, OutOfMemory>
    ensures same { IfOk result (λ a. action_code (table_spec table.now) locals.new.items a ≡ static_given (table_spec table.now) making.entry.value value) }
    ensures busy { IfOk result (λ a. busy a ≤ 1) }
    ensures falls { IfOk result (λ a. height a < 10 + most) }
{
    let mut making = Box::into_inner(making);
    making.slots.push(Slot::Held(value))?;
    evaluate_statics(alloc, table, locals, making)
}
