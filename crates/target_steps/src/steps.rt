// The steps of a target.

ghost use Rattle.std.specs.Prelude.{◌≡◌, ◌∷◌, [], map, IfOk};
ghost use Rattle.vdm_tree.specs.StmtView.{target_step_view};
ghost use Rattle.form_meaning.specs.Forms.{FormTree};
ghost use Rattle.class_checks.specs.Results.{Checked};
ghost use Rattle.spec_checks.specs.Targets.{steps_in};
ghost use Rattle.stmt_exprs.specs.Below.check_scopes.specs.Told.{first_in};
ghost use Rattle.stmt_exprs.specs.Below.check_frames.specs.Meant.{spec_here};
ghost use Rattle.stmt_exprs.specs.Below.stmt_scopes.specs.Standing.{stands_here};
ghost use Rattle.stmt_exprs.specs.Below.stmt_scopes.specs.Refused.{refused};

use crate::elements::element_behind;
use crate::fields::field_behind;
use stmt_exprs::handed::check_scopes::Refusals;
use stmt_exprs::handed::stmt_scopes::Stands;
use type_forms::Form;
use vdm_kinds::{OutOfMemory, Place};
use vdm_tree::TargetStep;

/// The form behind the steps into a value of this form. That there is no such part is refused at the place, which is the target's.
pub fn form_behind(
    stands: Stands<'_>,
    place: Place,
    form: Form,
    steps: &[TargetStep],
    refusals: &mut Refusals,
) -> Result<Form, OutOfMemory>
    ensures { IfOk result (λ found. (rest : FormTree → Checked) → refused (first_in refusals.old) (steps_in (spec_here stands.entry.here) (stands_here stands.entry) place form (map target_step_view steps.now) rest) ≡ refused (first_in refusals.new) (rest found)) }
{
    let mut found = form;
    for step in steps {
        found = part_behind(stands, place, found, step, refusals)?;
    }
    Ok(found)
}

// Behind one step.
fn part_behind(
    stands: Stands<'_>,
    place: Place,
    form: Form,
    step: &TargetStep,
    refusals: &mut Refusals,
) -> Result<Form, OutOfMemory>
    ensures { IfOk result (λ found. (rest : FormTree → Checked) → refused (first_in refusals.old) (steps_in (spec_here stands.entry.here) (stands_here stands.entry) place form (target_step_view step.now ∷ []) rest) ≡ refused (first_in refusals.new) (rest found)) }
{
    match step {
        TargetStep::Field(name, _, _) => field_behind(stands, place, form, *name, refusals),
        TargetStep::Element(index, _) => element_behind(stands, place, form, index, refusals),
    }
}
