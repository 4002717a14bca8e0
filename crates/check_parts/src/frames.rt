// What follows from the form of a part.

ghost use Rattle.std.specs.Prelude.{◌≡◌, IfOk};
ghost use Rattle.check_series.specs.Below.check_scopes.specs.Told.{first_in, told};
ghost use Rattle.check_series.specs.Below.check_frames.specs.Meant.{frame_check, next_check, scope_here, step_check};

use crate::alternatives::choice_next;
use crate::node_parts::{condition_behind, part_behind};
use crate::targets::{head_behind, target_behind, target_of_class_behind};
use check_binds::bind_step_next;
use check_series::handed::check_frames::{Frame, Here, Next, Step};
use check_series::handed::check_scopes::{Refusals, Setting};
use check_series::handed::check_steps::givens_next;
use std::alloc::Global;
use type_forms::Form;
use vdm_kinds::OutOfMemory;

/// What follows from the form of the part above a frame.
pub fn frame_next<'t>(
    alloc: Global,
    setting: Setting<'_>,
    frame: Frame<'t>,
    form: Form,
    refusals: &mut Refusals,
) -> Result<Next<'t>, OutOfMemory>
    ensures { IfOk result (λ next. told (first_in refusals.old) (frame_check setting.entry frame.entry form) ≡ told (first_in refusals.new) (next_check setting.entry next)) }
{
    let Frame { step, locals } = frame;
    let here = Here {
        alloc,
        setting,
        locals: &locals,
    };
    step_next(here, step, form, refusals)
}

fn step_next<'t>(
    here: Here<'_>,
    step: Step<'t>,
    form: Form,
    refusals: &mut Refusals,
) -> Result<Next<'t>, OutOfMemory>
    ensures { IfOk result (λ next. told (first_in refusals.old) (step_check here.entry.setting (scope_here here.entry) step.entry form) ≡ told (first_in refusals.new) (next_check here.entry.setting next)) }
{
    match step {
        Step::Part {
            shape,
            done,
            place,
            rest,
        } => part_behind(here, shape, done, place, rest, form, refusals),
        Step::Head {
            head_place,
            arguments,
            place,
        } => head_behind(here, head_place, arguments, place, form, refusals),
        Step::Target {
            target_place,
            named,
            way,
        } => target_behind(here, target_place, named, way, form, refusals),
        Step::TargetOfClass {
            target_place,
            class,
            named,
            way,
        } => target_of_class_behind(here, target_place, class, named, way, form, refusals),
        Step::Condition { place, body } => condition_behind(here, place, body, form, refusals),
        Step::Given { exprs, next, after } => givens_next(here, exprs, next, after),
        Step::Bind(step) => bind_step_next(here, step, form, refusals),
        Step::Choice(choice) => choice_next(here, choice, form, refusals),
    }
}
