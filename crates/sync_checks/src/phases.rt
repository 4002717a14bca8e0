// What may stand behind the period of a periodic thread.

ghost use Rattle.std.specs.Prelude.{◌≡◌, OnOk, option_map};
ghost use Rattle.class_checks.specs.Results.{first_among};
ghost use Rattle.part_checks.specs.Below.check_scopes.specs.Told.{first_in};
ghost use Rattle.part_checks.specs.Below.check_frames.specs.Meant.{scope_here, spec_here};
ghost use Rattle.expr_tree.specs.View.{boxed_view};
ghost use Rattle.vdm_tree.specs.ClassView.{phase_view};
ghost use Rattle.sync_checks.specs.Numbers.{phase_in, some_phase_in};

use crate::numbers::{Bounds, MOST_TICKS, delay_most, number_of, refuse_tick};
use expr_tree::Expr;
use part_checks::handed::check_frames::Here;
use part_checks::handed::check_scopes::Refusals;
use vdm_kinds::OutOfMemory;
use vdm_tree::Phase;

/// Notes what is refused in the jitter, the delay and the offset, where they are written.
pub(crate) fn refuse_maybe_phase(
    here: Here<'_>,
    period: &Box<Expr>,
    phase: &Option<Phase>,
    refusals: &mut Refusals,
) -> Result<(), OutOfMemory>
    ensures { OnOk result (first_in refusals.new ≡ first_among (first_in refusals.old) (phase_in (spec_here here.entry) (scope_here here.entry) (boxed_view period.now) (option_map phase_view phase.now))) }
{
    match phase {
        Some(phase) => refuse_phase(here, period, phase, refusals),
        None => Ok(()),
    }
}

fn refuse_phase(
    here: Here<'_>,
    period: &Box<Expr>,
    phase: &Phase,
    refusals: &mut Refusals,
) -> Result<(), OutOfMemory>
    ensures { OnOk result (first_in refusals.new ≡ first_among (first_in refusals.old) (some_phase_in (spec_here here.entry) (scope_here here.entry) (boxed_view period.now) (phase_view phase.now))) }
{
    let any = Bounds {
        least: 0,
        greatest: MOST_TICKS,
    };
    let known = number_of(here.setting, period);
    let within_period = Bounds {
        least: 0,
        greatest: delay_most(known),
    };
    refuse_tick(here, any, &phase.jitter, refusals)?;
    refuse_tick(here, within_period, &phase.delay, refusals)?;
    refuse_tick(here, any, &phase.offset, refusals)
}
