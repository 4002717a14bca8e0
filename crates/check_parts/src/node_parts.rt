// Parts of a node, and conditions.

ghost use Rattle.std.specs.Prelude.{◌≡◌, IfOk, map};
ghost use Rattle.class_checks.specs.Expressions.{want_faults};
ghost use Rattle.class_checks.specs.Operators.{truth};
ghost use Rattle.class_checks.specs.Results.{refusing};
ghost use Rattle.check_series.specs.Below.check_scopes.specs.Told.{first_in, told};
ghost use Rattle.check_series.specs.Below.check_shapes.specs.ShapeView.{seen_view, shape_view};
ghost use Rattle.check_series.specs.Below.check_frames.specs.Meant.{body_check, next_check, part_seen, scope_here, spec_here};

use check_series::handed::check_frames::{Body, Here, Next, Rest};
use check_series::handed::check_scopes::Refusals;
use check_series::handed::check_shapes::{Seen, Shape, next_part, want_truth};
use check_series::handed::check_steps::{body_next, rest_next};
use type_forms::Form;
use vdm_kinds::{OutOfMemory, Place};

/// A part at the place has this form.
pub(crate) fn part_behind<'t>(
    here: Here<'_>,
    shape: Shape<'t>,
    done: Vec<Seen>,
    place: Place,
    rest: Rest<'t>,
    form: Form,
    refusals: &mut Refusals,
) -> Result<Next<'t>, OutOfMemory>
    ensures { IfOk result (λ next. told (first_in refusals.old) (part_seen here.entry.setting (scope_here here.entry) (shape_view shape.entry) (map seen_view done.items) place rest.entry form) ≡ told (first_in refusals.new) (next_check here.entry.setting next)) }
{
    let done = next_part(
        here.alloc,
        here.setting,
        &shape,
        done,
        place,
        form,
        refusals,
    )?;
    rest_next(here, shape, done, rest)
}

/// A condition at the place has this form.
pub(crate) fn condition_behind<'t>(
    here: Here<'_>,
    place: Place,
    body: Body<'t>,
    form: Form,
    refusals: &mut Refusals,
) -> Result<Next<'t>, OutOfMemory>
    ensures { IfOk result (λ next. told (first_in refusals.old) (refusing (want_faults (spec_here here.entry) truth place form) (body_check here.entry.setting (scope_here here.entry) body.entry)) ≡ told (first_in refusals.new) (next_check here.entry.setting next)) }
{
    want_truth(here.setting, place, &form, refusals);
    body_next(here, body)
}
