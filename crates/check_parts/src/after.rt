// What comes behind patterns.

ghost use Rattle.std.specs.Prelude.{◌≡◌, IfOk};
ghost use Rattle.check_series.specs.Below.check_scopes.specs.Told.{first_in, told};
ghost use Rattle.check_series.specs.Below.check_frames.specs.Meant.{after_check, goal_check, next_check, scope_here};

use check_series::handed::check_frames::{After, Body, Goal, Here, Next};
use check_series::handed::check_scopes::{Refusals, Setting};
use check_series::handed::check_steps::{becomes, condition_next};
use check_series::{binds_next, definitions_next, values_next};
use std::alloc::Global;
use vdm_kinds::OutOfMemory;

/// What comes behind patterns, once the expressions in brackets in them are checked.
pub fn after_next<'t>(
    alloc: Global,
    setting: Setting<'_>,
    after: After<'t>,
    refusals: &mut Refusals,
) -> Result<Next<'t>, OutOfMemory>
    ensures { IfOk result (λ next. told (first_in refusals.old) (after_check setting.entry after.entry) ≡ told (first_in refusals.new) (next_check setting.entry next)) }
{
    let After { goal, locals } = after;
    let here = Here {
        alloc,
        setting,
        locals: &locals,
    };
    goal_next(here, goal, refusals)
}

fn goal_next<'t>(
    here: Here<'_>,
    goal: Goal<'t>,
    refusals: &mut Refusals,
) -> Result<Next<'t>, OutOfMemory>
    ensures { IfOk result (λ next. told (first_in refusals.old) (goal_check here.entry.setting (scope_here here.entry) goal.entry) ≡ told (first_in refusals.new) (next_check here.entry.setting next)) }
{
    match goal {
        Goal::Binds(rest) => binds_next(here, rest),
        Goal::Definitions { definitions, body } => definitions_next(here, definitions, body),
        Goal::Iota { condition, form } => condition_next(here, condition, Body::Known(form)),
        Goal::CaseValues { known, values } => values_next(here, known, values, refusals),
        Goal::Body(body) => becomes(here, body),
    }
}
