// What is done once it is decided how a value fits.

ghost use Rattle.std.specs.Prelude.{◌≡◌};
ghost use Rattle.node_meaning.specs.Envs.{Locals};
ghost use Rattle.node_meaning.specs.Needs.{Setting};
ghost use Rattle.type_meaning.specs.Tests.{fits, wrong_invariant, wrong_type};
ghost use Rattle.abstract_syntax.specs.Values.{boolean};
ghost use Rattle.vdm_kinds.specs.declared.place.Place.{Place};
ghost use Rattle.eval_data.specs.Steps.{verdict_of};
ghost use Rattle.fit_steps.specs.Tests.{tested_code};

use crate::tested::Tested;
use eval_data::Verdict;
use vdm_kinds::RunFault;
use vdm_values::{Node, Value};

/// The value fits.
pub(crate) fn fits<'t>(verdict: Verdict) -> Tested<'t>
    ensures { (setting : Setting) (place : Place) (locals : Locals) → tested_code setting place locals result ≡ verdict_of verdict place locals fits }
{
    match verdict {
        Verdict::Passes(value) => Tested::Gives(value),
        Verdict::Answers => Tested::Gives(truth(true)),
    }
}

/// It has another structure.
pub(crate) fn wrong_type<'t>(verdict: Verdict) -> Tested<'t>
    ensures { (setting : Setting) (place : Place) (locals : Locals) → tested_code setting place locals result ≡ verdict_of verdict place locals wrong_type }
{
    match verdict {
        Verdict::Passes(_value) => Tested::Fails(RunFault::TypeFault),
        Verdict::Answers => Tested::Gives(truth(false)),
    }
}

/// It misses an invariant alone.
pub(crate) fn wrong_invariant<'t>(verdict: Verdict) -> Tested<'t>
    ensures { (setting : Setting) (place : Place) (locals : Locals) → tested_code setting place locals result ≡ verdict_of verdict place locals wrong_invariant }
{
    match verdict {
        Verdict::Passes(_value) => Tested::Fails(RunFault::TypeInvariant),
        Verdict::Answers => Tested::Gives(truth(false)),
    }
}

fn truth(holds: bool) -> Value
    ensures { result ≡ boolean holds }
{
    Value::new(Node::Bool(holds))
}
