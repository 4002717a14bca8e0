// Values that are tested against the types of what they are assigned to.

ghost use Rattle.std.specs.Prelude.{◌≡◌, IfOk};
ghost use Rattle.abstract_syntax.specs.Values.{ValueTree};
ghost use Rattle.spec_table.specs.Tables.{table_spec};
ghost use Rattle.plans.specs.Plans.{bind};
ghost use Rattle.node_meaning.specs.Envs.{Locals};
ghost use Rattle.node_meaning.specs.Tasks.{Code, with_value};
ghost use Rattle.stmt_meaning.specs.Questions.{of_thread};
ghost use Rattle.stmt_meaning.specs.Targets.{goal_typed};
ghost use Rattle.eval_data.specs.Parts.{here_of};
ghost use Rattle.fit_steps.specs.Tests.{tested_code};
ghost use Rattle.step_data.specs.Goals.{goal_view};

use eval_data::{Here, Nest};
use fit_steps::{Tested, fitted};
use spec_table::ClassTable;
use std::alloc::Global;
use step_data::Goal;
use vdm_kinds::{Name, OutOfMemory, Place};
use vdm_values::{Slot, Value};

/// A value is tested against the type of what it is assigned to: that of a local variable in the class of the statement, that of a
/// variable of the object in its own class. No statement stands inside a test of a type.
pub(crate) fn goal_tested<'t>(
    alloc: Global,
    table: &'t ClassTable,
    locals: &mut Vec<(Name, Slot)>,
    here: Here<'t>,
    goal: Goal<'t>,
    place: Place,
    value: Value,
) -> Result<Tested<'t>, OutOfMemory>
    ensures { IfOk result (λ t. (further : ValueTree → Locals → Code) → bind (tested_code (of_thread (table_spec table.entry.now)) place locals.new.items t) (with_value place further) ≡ goal_typed (table_spec table.entry.now) (here_of here.entry) place (goal_view goal.entry) further value locals.old.items) }
{
    let nest = Nest::none();
    match goal {
        Goal::Local(_, declared) => {
            let scope = here.scope;
            fitted(alloc, table, locals, nest, scope, declared, place, value)
        }
        Goal::Variable(_, var, declared) => {
            let class = Some(var.class);
            fitted(alloc, table, locals, nest, class, declared, place, value)
        }
    }
}
