// What is done with what comes of a part.

ghost use Rattle.std.specs.Prelude.{◌≡◌, IfOk};
ghost use Rattle.node_meaning.specs.Needs.{Asker};
ghost use Rattle.node_meaning.specs.Tasks.{with_value as with_value_plan};
ghost use Rattle.eval_data.specs.Parts.{flow_of};
ghost use Rattle.eval_data.specs.Steps.{code_of, frame_then, use_of as use_plan};
ghost use Rattle.eval_steps.specs.Settings.{set};

use crate::uses::use_of;
use eval_data::{Flow, Frame, Step, Use};
use match_steps::cut;
use name_steps::after_need;
use spec_table::ClassTable;
use std::alloc::Global;
use vdm_kinds::{Name, OutOfMemory, Place, RunFault};
use vdm_values::Slot;

/// What the frame does with what came.
pub fn then_of<'t>(
    alloc: Global,
    table: &'t ClassTable,
    locals: &mut Vec<(Name, Slot)>,
    frame: Frame<'t>,
    flow: Flow,
) -> Result<Step<'t>, OutOfMemory>
    ensures { IfOk result (λ s. (asker : Asker) → code_of (set table.now asker) locals.new.items s ≡ frame_then (set table.now asker) frame.entry (flow_of flow locals.old.items)) }
{
    match frame {
        Frame::With(used, place) => with_value(alloc, table, locals, used, place, flow),
        Frame::After(after, place) => after_need(alloc, after, place, flow),
        Frame::Cut(count) => Ok(cut(locals, count, flow)),
    }
}

/// What is done with the value that came; an exit goes on.
fn with_value<'t>(
    alloc: Global,
    table: &'t ClassTable,
    locals: &mut Vec<(Name, Slot)>,
    used: Use<'t>,
    place: Place,
    flow: Flow,
) -> Result<Step<'t>, OutOfMemory>
    ensures { IfOk result (λ s. (asker : Asker) → code_of (set table.now asker) locals.new.items s ≡ with_value_plan place (use_plan (set table.now asker) used.entry place) (flow_of flow locals.old.items)) }
{
    match flow {
        Flow::Gave(Slot::Held(value)) => use_of(alloc, table, locals, used, place, value),
        Flow::Gave(Slot::Unset) => Ok(Step::Fail(RunFault::Undefined, place)),
        Flow::Next => Ok(Step::Fail(RunFault::Undefined, place)),
        Flow::Returned(_slot) => Ok(Step::Fail(RunFault::Undefined, place)),
        Flow::Exited(value, from) => Ok(Step::Finish(Flow::Exited(value, from))),
    }
}
