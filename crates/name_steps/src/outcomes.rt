// What comes of needs.

ghost use Rattle.std.specs.Prelude.{◌≡◌, IfOk};
ghost use Rattle.vdm_kinds.specs.declared.place.Place.{Place as PlaceOf};
ghost use Rattle.expr_tree.specs.View.{expr_trees, views_of};
ghost use Rattle.node_meaning.specs.Wanted.{given as given_plan, given_slot as given_slot_plan};
ghost use Rattle.node_meaning.specs.Envs.{Locals};
ghost use Rattle.node_meaning.specs.Expressions.{looked_up_in as looked_up_in_plan};
ghost use Rattle.node_meaning.specs.Needs.{Setting};
ghost use Rattle.node_meaning.specs.Tasks.{with_value, value as value_of};
ghost use Rattle.eval_data.specs.Parts.{here_of, wanted_of, flow_of};
ghost use Rattle.eval_data.specs.Steps.{code_of, IsLight, after_need as after_need_plan};
ghost use Rattle.name_steps.specs.Came.{came_code};

use crate::calling::looked_up_in;
use eval_data::{After, Flow, Here, Step, Wanted};
use expr_tree::Expr;
use std::alloc::Global;
use vdm_kinds::{OutOfMemory, Place, RunFault};
use vdm_values::Slot;

/// What follows a need of the node at the place. It fails with `Undefined` where what came is no value and one is read, made or looked up
/// in, and with `NoReturn` where a call gave none and one is wanted.
pub fn after_need<'t>(
    alloc: Global,
    after: After<'t>,
    place: Place,
    flow: Flow,
) -> Result<Step<'t>, OutOfMemory>
    ensures same { IfOk result (λ s. (setting : Setting) (locals : Locals) → code_of setting locals s ≡ after_need_plan after.entry place (flow_of flow locals)) }
    ensures light { IfOk result (λ s. IsLight s) }
{
    match after {
        After::Value => Ok(came_step(needed_value(flow), place)),
        After::Given(wanted) => Ok(came_step(given(wanted, flow), place)),
        After::LooksUp(here, arguments, applied) => {
            needed_looked_up_in(alloc, here, arguments, applied, place, flow)
        }
    }
}

/// What came of a node, or its fault at the place.
fn came_step<'t>(came: Result<Flow, RunFault>, place: Place) -> Step<'t>
    ensures same { (setting : Setting) (locals : Locals) → code_of setting locals result ≡ came_code place locals came }
    ensures light { IsLight result }
{
    match came {
        Ok(flow) => Step::Finish(flow),
        Err(fault) => Step::Fail(fault, place),
    }
}

/// What an application at the place `applied` looks up in the value that was needed.
fn needed_looked_up_in<'t>(
    alloc: Global,
    here: Here<'t>,
    arguments: &'t Vec<Expr>,
    applied: Place,
    place: Place,
    flow: Flow,
) -> Result<Step<'t>, OutOfMemory>
    ensures same { IfOk result (λ s. (setting : Setting) (locals : Locals) → code_of setting locals s ≡ with_value place (looked_up_in_plan (here_of here.entry) (expr_trees (views_of arguments.now.items)) applied) (flow_of flow locals)) }
    ensures light { IfOk result (λ s. IsLight s) }
{
    match flow {
        Flow::Gave(Slot::Held(value)) => looked_up_in(alloc, here, arguments, applied, value),
        Flow::Gave(Slot::Unset) => Ok(Step::Fail(RunFault::Undefined, place)),
        Flow::Next => Ok(Step::Fail(RunFault::Undefined, place)),
        Flow::Returned(_slot) => Ok(Step::Fail(RunFault::Undefined, place)),
        Flow::Exited(value, from) => Ok(Step::Finish(Flow::Exited(value, from))),
    }
}

fn needed_value(flow: Flow) -> Result<Flow, RunFault>
    ensures { (place : PlaceOf) (locals : Locals) → came_code place locals result ≡ with_value place value_of (flow_of flow locals) }
{
    match flow {
        Flow::Gave(Slot::Held(value)) => Ok(Flow::Gave(Slot::Held(value))),
        Flow::Gave(Slot::Unset) => Err(RunFault::Undefined),
        Flow::Next => Err(RunFault::Undefined),
        Flow::Returned(_slot) => Err(RunFault::Undefined),
        Flow::Exited(value, from) => Ok(Flow::Exited(value, from)),
    }
}

/// What a call gave is given on, and an exit that left the operation goes on.
fn given(wanted: Wanted, flow: Flow) -> Result<Flow, RunFault>
    ensures { (place : PlaceOf) (locals : Locals) → came_code place locals result ≡ given_plan (wanted_of wanted) place (flow_of flow locals) }
{
    match flow {
        Flow::Gave(slot) => given_slot(wanted, slot),
        Flow::Next => Err(RunFault::Undefined),
        Flow::Returned(_slot) => Err(RunFault::Undefined),
        Flow::Exited(value, from) => Ok(Flow::Exited(value, from)),
    }
}

/// Where a value is wanted and none came, that is a fault at the call.
fn given_slot(wanted: Wanted, slot: Slot) -> Result<Flow, RunFault>
    ensures { (place : PlaceOf) (locals : Locals) → came_code place locals result ≡ given_slot_plan (wanted_of wanted) place slot locals }
{
    match (wanted, slot) {
        (Wanted::Nothing, slot) => Ok(Flow::Gave(slot)),
        (Wanted::Value, Slot::Held(value)) => Ok(Flow::Gave(Slot::Held(value))),
        (Wanted::Value, Slot::Unset) => Err(RunFault::NoReturn),
    }
}
