// What a task does first.

ghost use Rattle.std.specs.Prelude.{◌≡◌, ◌≤◌, ◌+◌, IfOk};
ghost use Rattle.spec_table.specs.Tables.{table_spec};
ghost use Rattle.step_data.specs.Actions.{action_code, height, most};
ghost use Rattle.step_data.specs.Declarations.{declared_of};
ghost use Rattle.next_steps.specs.Plans.{task_plan};

use eval_steps::{bare_call, expression};
use spec_table::ClassTable;
use std::alloc::Global;
use step_data::{Action, Declared, Task};
use stmt_steps::statement;
use vdm_kinds::{Name, OutOfMemory};
use vdm_values::Slot;

/// What the node does, where its faults stand aside, and among these local variables.
pub fn node_plan<'t>(
    alloc: Global,
    table: &'t ClassTable,
    locals: &mut Vec<(Name, Slot)>,
    declared: &Declared<'t>,
    task: Task<'t>,
) -> Result<Action<'t>, OutOfMemory>
    ensures same { IfOk result (λ a. action_code (table_spec table.now) locals.new.items a ≡ task_plan (table_spec table.now) (declared_of declared.now) task.entry locals.old.items) }
    ensures falls { IfOk result (λ a. height a ≤ 9 + most) }
{
    match task {
        Task::Expr(here, tree) => Ok(Action::of(expression(alloc, table, locals, here, tree)?)),
        Task::Call(here, tree) => Ok(Action::of(bare_call(alloc, table, locals, here, tree)?)),
        Task::Stmt(here, tree) => statement(alloc, table, locals, declared, here, tree),
    }
}
