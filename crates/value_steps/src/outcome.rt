// Steps of what came of an operator, or was made of values.

ghost use Rattle.std.specs.Prelude.{◌≡◌, IfOk};
ghost use Rattle.node_meaning.specs.Envs.{Locals};
ghost use Rattle.node_meaning.specs.Needs.{Setting};
ghost use Rattle.node_meaning.specs.Strict.{make};
ghost use Rattle.node_meaning.specs.Tasks.{value_or_fault};
ghost use Rattle.value_operators.specs.Outcomes.{Outcome, Gives};
ghost use Rattle.eval_data.specs.Parts.{strict_of};
ghost use Rattle.eval_data.specs.Steps.{code_of};

use crate::made::made_of;
use eval_data::{Step, Strict};
use std::alloc::Global;
use vdm_kinds::{Halt, OutOfMemory, Place, RunFault};
use vdm_values::Value;

/// The value that came, or the fault at the node's place.
pub fn outcome_step<'t>(
    came: Result<Value, Halt<RunFault>>,
    place: Place,
) -> Result<Step<'t>, OutOfMemory>
    ensures { (outcome : Outcome) → Gives came outcome → IfOk result (λ s. (setting : Setting) (locals : Locals) → code_of setting locals s ≡ value_or_fault place outcome locals) }
{
    match came {
        Ok(value) => Ok(Step::value(value)),
        Err(Halt::Of(fault)) => Ok(Step::Fail(fault, place)),
        Err(Halt::OutOfMemory) => Err(OutOfMemory),
    }
}

/// What is made of the values of all parts of the node at the place.
pub fn make<'t>(
    alloc: Global,
    what: Strict,
    place: Place,
    values: Vec<Value>,
) -> Result<Step<'t>, OutOfMemory>
    ensures { IfOk result (λ s. (setting : Setting) (locals : Locals) → code_of setting locals s ≡ make (strict_of what) place values.items locals) }
{
    outcome_step(made_of(alloc, what, values), place)
}
