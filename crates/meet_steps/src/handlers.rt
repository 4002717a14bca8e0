// The handlers of `trap` and `tixe`.

ghost use Rattle.std.specs.Prelude.{◌≡◌, ◌≤◌, IfOk, length};
ghost use Rattle.abstract_syntax.specs.Classes.{SpecTree};
ghost use Rattle.expr_tree.specs.View.{pattern_view};
ghost use Rattle.vdm_tree.specs.StmtView.{boxed_stmt};
ghost use Rattle.node_meaning.specs.Envs.{Locals};
ghost use Rattle.stmt_meaning.specs.Handlers.{trapped as trapped_plan, caught as caught_plan, handled_by};
ghost use Rattle.spec_table.specs.Tables.{table_spec};
ghost use Rattle.eval_data.specs.Parts.{here_of, flow_of};
ghost use Rattle.step_data.specs.Actions.{action_code, height};
ghost use Rattle.step_data.specs.Parts.{handlers_of};
ghost use Rattle.meet_steps.specs.Onwards.{end_height, left_in, onward_code};

use crate::meeting::{followed, meets};
use crate::onward::Onward;
use eval_data::{Flow, Here};
use expr_tree::Pattern;
use spec_table::ClassTable;
use std::alloc::Global;
use step_data::{Action, Follow, Meeting};
use vdm_kinds::{Name, OutOfMemory, Place};
use vdm_tree::{Handler, Stmt};
use vdm_values::{Slot, Value};

/// Behind the body of `trap` an exit whose value the pattern matches is handled, among the first so many locals; any other goes on.
pub fn trapped<'t>(
    alloc: Global,
    table: &ClassTable,
    locals: &mut Vec<(Name, Slot)>,
    here: Here<'t>,
    pattern: &'t Box<Pattern>,
    handler: &'t Box<Stmt>,
    place: Place,
    count: usize,
    flow: Flow,
) -> Result<Action<'t>, OutOfMemory>
    ensures same { IfOk result (λ a. action_code (table_spec table.now) locals.new.items a ≡ trapped_plan (table_spec table.now) (here_of here.entry) place (pattern_view pattern.entry.now.value) (boxed_stmt handler.entry.now) count (flow_of flow locals.old.items)) }
    ensures falls { IfOk result (λ a. height a ≤ 1) }
{
    match flow {
        Flow::Exited(value, from) => {
            locals.truncate(count);
            let follow = Follow::Trap(handler, from, count);
            let meeting = Meeting {
                here,
                place,
                pattern,
                value,
                follow,
            };
            meets(alloc, table, locals, meeting)
        }
        Flow::Gave(slot) => Ok(Action::Finish(Flow::Gave(slot))),
        Flow::Next => Ok(Action::Finish(Flow::Next)),
        Flow::Returned(slot) => Ok(Action::Finish(Flow::Returned(slot))),
    }
}

/// Behind the body of `tixe`, and behind each handler, an exit is handled by the first handler whose pattern matches its value; the
/// locals behind the first so many go.
pub fn caught<'t>(
    alloc: Global,
    table: &ClassTable,
    locals: &mut Vec<(Name, Slot)>,
    here: Here<'t>,
    handlers: &'t [Handler],
    count: usize,
    place: Place,
    flow: Flow,
) -> Result<Action<'t>, OutOfMemory>
    ensures same { IfOk result (λ a. action_code (table_spec table.now) locals.new.items a ≡ caught_plan (table_spec table.now) (here_of here.entry) place (handlers_of handlers.entry.now) count (flow_of flow locals.old.items)) }
    ensures falls { IfOk result (λ a. height a ≤ 1) }
{
    locals.truncate(count);
    match flow {
        Flow::Exited(value, from) => {
            let onward = next_handler(here, place, value, handlers, handlers, from, count);
            followed(alloc, table, locals, onward)
        }
        Flow::Gave(slot) => Ok(Action::Finish(Flow::Gave(slot))),
        Flow::Next => Ok(Action::Finish(Flow::Next)),
        Flow::Returned(slot) => Ok(Action::Finish(Flow::Returned(slot))),
    }
}

/// The first of the handlers that are left, or the exit goes on.
pub(crate) fn next_handler<'t>(
    here: Here<'t>,
    place: Place,
    value: Value,
    all: &'t [Handler],
    left: &'t [Handler],
    from: Place,
    count: usize,
) -> Onward<'t>
    ensures same { (spec : SpecTree) (locals : Locals) → onward_code spec locals result ≡ handled_by spec (here_of here.entry) place (handlers_of all.now) count (handlers_of left.now) value from locals }
    ensures falls { end_height result ≤ 1 }
    ensures fewer { left_in result ≤ length left.now }
{
    match left.split_first() {
        Some((handler, others)) => {
            let follow = Follow::Tixe(all, others, &handler.body, from, count);
            Onward::Meets(Meeting {
                here,
                place,
                pattern: &handler.pattern,
                value,
                follow,
            })
        }
        None => Onward::Ends(Action::Finish(Flow::Exited(value, from))),
    }
}
