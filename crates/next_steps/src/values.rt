// What is done with what came of a part whose value is wanted.

ghost use Rattle.std.specs.Prelude.{◌≡◌, ◌≤◌};
ghost use Rattle.abstract_syntax.specs.Classes.{SpecTree};
ghost use Rattle.node_meaning.specs.Envs.{Locals};
ghost use Rattle.stmt_meaning.specs.Flows.{return_value as return_plan};
ghost use Rattle.node_meaning.specs.Tasks.{with_value};
ghost use Rattle.eval_data.specs.Parts.{flow_of};
ghost use Rattle.step_data.specs.Actions.{action_code, height};

use eval_data::Flow;
use flow_steps::return_value;
use step_data::Action;
use vdm_kinds::{Place, RunFault};
use vdm_values::Slot;

/// What came is returned, where it is a value.
pub(crate) fn returned_flow<'t>(place: Place, flow: Flow) -> Action<'t>
    ensures same { (spec : SpecTree) (locals : Locals) → action_code spec locals result ≡ with_value place return_plan (flow_of flow locals) }
    ensures falls { height result ≤ 1 }
{
    match flow {
        Flow::Gave(Slot::Held(value)) => return_value(value),
        Flow::Gave(Slot::Unset) => Action::Fail(RunFault::Undefined, place),
        Flow::Next => Action::Fail(RunFault::Undefined, place),
        Flow::Returned(_slot) => Action::Fail(RunFault::Undefined, place),
        Flow::Exited(value, from) => Action::Finish(Flow::Exited(value, from)),
    }
}
