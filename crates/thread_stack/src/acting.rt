// What a node does next, and what stands round it.

ghost use Rattle.std.specs.Prelude.{◌≡◌, ◌≤◌, ◌<◌, ◌+◌, IfOk};
ghost use Rattle.abstract_syntax.specs.Classes.{SpecTree};
ghost use Rattle.node_meaning.specs.Envs.{Locals};
ghost use Rattle.node_meaning.specs.Tasks.{Declared as MeantDeclared, spent, task_among};
ghost use Rattle.stmt_meaning.specs.Questions.{of_thread};
ghost use Rattle.stmt_meaning.specs.TaskPlans.{plan_of};
ghost use Rattle.plans.specs.Plans.{fail};
ghost use Rattle.spec_table.specs.Tables.{table_spec};
ghost use Rattle.eval_data.specs.Parts.{flow_of};
ghost use Rattle.step_data.specs.Actions.{action_code, busy, height, level_then, most, waiting_weight};
ghost use Rattle.step_data.specs.Declarations.{declared_of, surrounded};
ghost use Rattle.step_data.specs.Parts.{task_of};

use eval_data::Flow;
use next_steps::{node_plan, then_of};
use spec_table::ClassTable;
use std::alloc::Global;
use step_data::{Action, Around, Declared, Level, Task};
use vdm_kinds::{Name, OutOfMemory, RunFault};
use vdm_values::Slot;

/// What the node does. An expression stands among no local variables to which it could assign.
pub(crate) fn planned<'t>(
    alloc: Global,
    table: &'t ClassTable,
    locals: &mut Vec<(Name, Slot)>,
    around: &mut Around<'t>,
    task: Task<'t>,
) -> Result<Action<'t>, OutOfMemory>
    ensures same { IfOk result (λ a. surrounded around.new (action_code (table_spec table.now) locals.new.items a) ≡ plan_of (of_thread (table_spec table.now)) (task_among (declared_of around.old.declared) (task_of task.entry locals.old.items))) }
    ensures falls { IfOk result (λ a. height a ≤ 9 + most) }
{
    around.nest = task.nest();
    let action = node_plan(alloc, table, locals, &around.declared, task)?;
    if !task.is_statement() {
        around.declared = Declared::none();
    }
    Ok(action)
}

/// A node that finds no unit left fails where it stands.
pub(crate) fn unentered<'t>(around: &mut Around<'t>, task: Task<'t>) -> Action<'t>
    ensures same { (spec : SpecTree) (declared : MeantDeclared) (locals : Locals) → surrounded around.new (action_code spec locals result) ≡ fail (spent (task_among declared (task_of task.entry locals))) }
    ensures falls { height result ≤ 1 }
    ensures busy { busy result ≤ 0 }
{
    let nest = task.nest();
    let declared = Declared::none();
    *around = Around { nest, declared };
    Action::Fail(RunFault::StepLimit, task.place())
}

/// What is done on the level with what came.
pub(crate) fn behind<'t>(
    alloc: Global,
    table: &'t ClassTable,
    locals: &mut Vec<(Name, Slot)>,
    around: &mut Around<'t>,
    level: Level<'t>,
    flow: Flow,
) -> Result<Action<'t>, OutOfMemory>
    ensures same { IfOk result (λ a. surrounded around.new (action_code (table_spec table.now) locals.new.items a) ≡ level_then (table_spec table.now) level.entry (flow_of flow locals.old.items)) }
    ensures busy { IfOk result (λ a. busy a ≤ waiting_weight level.entry.waiting.waiting) }
    ensures falls { IfOk result (λ a. height a < waiting_weight level.entry.waiting.waiting) }
{
    let Level {
        around: outer,
        waiting,
    } = level;
    *around = outer;
    then_of(alloc, table, locals, waiting.into_waiting(), flow)
}
