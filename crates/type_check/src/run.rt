// All turns.

ghost use Rattle.std.specs.Prelude.{◌≡◌, IfOk};
ghost use Rattle.class_checks.specs.Results.{gives};
ghost use Rattle.check_named.specs.Below.check_scopes.specs.Told.{first_in, told};
ghost use Rattle.type_check.specs.Checks.{state_check};

use crate::state::{State, Turn};
use crate::turn::take_turn;
use check_named::handed::check_scopes::{Refusals, Setting};
use std::alloc::Global;
use type_forms::Form;
use vdm_kinds::OutOfMemory;

/// Goes on to the end. The text bounds the turns, and no memory would hold as many as are counted.
pub(crate) fn run(
    alloc: Global,
    setting: Setting<'_>,
    state: State<'_>,
    refusals: &mut Refusals,
) -> Result<Form, OutOfMemory>
    ensures { IfOk result (λ form. told (first_in refusals.old) (state_check setting.entry state.entry) ≡ told (first_in refusals.new) (gives form)) }
{
    let mut state = state;
    for _step in 0..u64::MAX {
        match take_turn(alloc, setting, state, refusals)? {
            Turn::Ends(form) => return Ok(form),
            Turn::Goes(next) => state = next,
        }
    }
    Err(OutOfMemory)
}
