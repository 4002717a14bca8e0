// The time.

ghost use Rattle.std.specs.Prelude.{◌≡◌};
ghost use Rattle.node_meaning.specs.Envs.{Locals};
ghost use Rattle.node_meaning.specs.Expressions.{time_told};
ghost use Rattle.node_meaning.specs.Needs.{Setting};
ghost use Rattle.eval_data.specs.Parts.{here_of};
ghost use Rattle.eval_data.specs.Steps.{code_of};

use crate::homes::may_act;
use eval_data::{After, Here, Need, Step};
use vdm_kinds::{Place, RunFault};

/// How many ticks there were, where the node may ask for it.
pub fn time_told<'t>(here: Here<'t>, place: Place) -> Step<'t>
    ensures { (setting : Setting) (locals : Locals) → code_of setting locals result ≡ time_told setting (here_of here.entry) place locals }
{
    if may_act(here) {
        Step::Need(Need::Time, place, After::Value)
    } else {
        Step::Fail(RunFault::Undefined, place)
    }
}
