// All turns.

ghost use Rattle.std.specs.Prelude.{◌≡◌, OnOk};
ghost use Rattle.class_checks.specs.Results.{first_among};
ghost use Rattle.stmt_kinds.specs.Below.check_scopes.specs.Told.{first_in};
ghost use Rattle.stmt_check.specs.Checks.{state_check};

use crate::state::{State, Turn};
use crate::turn::take_turn;
use std::alloc::Global;
use stmt_kinds::handed::check_scopes::{Refusals, Setting};
use stmt_kinds::handed::stmt_scopes::Returned;
use vdm_kinds::OutOfMemory;

/// Goes on to the end. The text bounds the turns, and no memory would hold as many as are counted.
pub(crate) fn run(
    alloc: Global,
    setting: Setting<'_>,
    returned: &Returned,
    state: State<'_>,
    refusals: &mut Refusals,
) -> Result<(), OutOfMemory>
    ensures { OnOk result (first_in refusals.new ≡ first_among (first_in refusals.old) (state_check setting.entry returned.now state.entry).refusals) }
{
    let mut state = state;
    for _step in 0..u64::MAX {
        match take_turn(alloc, setting, returned, state, refusals)? {
            Turn::Ends => return Ok(()),
            Turn::Goes(next) => state = next,
        }
    }
    Err(OutOfMemory)
}
