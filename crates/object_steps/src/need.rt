// Which questions a need stands for.

ghost use Rattle.std.specs.Prelude.{◌≡◌, ◌≤◌, ◌+◌, IfOk};
ghost use Rattle.spec_table.specs.Tables.{table_spec};
ghost use Rattle.stmt_meaning.specs.Questions.{questions_of};
ghost use Rattle.node_meaning.specs.Tasks.{calls};
ghost use Rattle.eval_data.specs.Parts.{need_of};
ghost use Rattle.step_data.specs.Actions.{action_code, busy, height, most};

use crate::object::new_object;
use call_steps::called;
use eval_data::Need;
use spec_table::ClassTable;
use std::alloc::Global;
use step_data::{Action, Asking, Creating};
use vdm_kinds::{Name, OpRef, OutOfMemory, Place, RunFault};
use vdm_values::{Slot, ValueList};

/// What a thread does about a need of the node at the place.
///
/// # Errors
/// Want of memory.
pub fn needed<'t>(
    alloc: Global,
    table: &'t ClassTable,
    locals: &mut Vec<(Name, Slot)>,
    need: Need,
    place: Place,
) -> Result<Action<'t>, OutOfMemory>
    ensures same { IfOk result (λ a. action_code (table_spec table.now) locals.new.items a ≡ questions_of (table_spec table.now) (need_of need) place locals.old.items) }
    ensures busy { IfOk result (λ a. busy a ≤ 1) }
    ensures falls { IfOk result (λ a. height a ≤ 7 + most) }
{
    match need {
        Need::Read(object, var) => Ok(Action::Ask(Asking::Read(object, var))),
        Need::Call {
            object,
            class,
            op,
            args,
            places,
        } => call(alloc, table, locals, object, class, op, args, places, place),
        Need::New {
            class,
            args,
            places,
        } => {
            let object = Creating {
                class,
                arguments: args,
                places,
                place,
            };
            new_object(alloc, table, locals, object)
        }
        Need::Print(values) => Ok(Action::Ask(Asking::Print(values))),
        Need::Time => Ok(Action::Ask(Asking::Time(place))),
    }
}

/// A call. What is no operation of its class is a type fault at the call.
fn call<'t>(
    alloc: Global,
    table: &'t ClassTable,
    locals: &mut Vec<(Name, Slot)>,
    object: u32,
    class: Name,
    op: OpRef,
    args: ValueList,
    places: Vec<Place>,
    place: Place,
) -> Result<Action<'t>, OutOfMemory>
    ensures same { IfOk result (λ a. action_code (table_spec table.now) locals.new.items a ≡ questions_of (table_spec table.now) (calls object class op args places.items) place locals.old.items) }
    ensures busy { IfOk result (λ a. busy a ≤ 1) }
    ensures falls { IfOk result (λ a. height a ≤ 6 + most) }
{
    let Some(operation) = table.operation(&op) else {
        return Ok(Action::Fail(RunFault::TypeFault, place));
    };
    called(
        alloc, table, locals, object, class, op, operation, args, places, place, None,
    )
}
