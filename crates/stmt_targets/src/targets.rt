// Targets.

ghost use Rattle.std.specs.Prelude.{◌≡◌, IfOk, map};
ghost use Rattle.shared_names.specs.Maps.{held};
ghost use Rattle.abstract_syntax.specs.Statements.{target_place};
ghost use Rattle.vdm_tree.specs.StmtView.{target_step_view, target_view};
ghost use Rattle.form_meaning.specs.Forms.{FormTree};
ghost use Rattle.class_checks.specs.Results.{Checked, refusing};
ghost use Rattle.spec_checks.specs.Targets.{steps_in, target_steps, written};
ghost use Rattle.target_steps.specs.Below.check_scopes.specs.Told.{first_in};
ghost use Rattle.target_steps.specs.Below.check_frames.specs.Meant.{spec_here};
ghost use Rattle.target_steps.specs.Below.stmt_scopes.specs.Standing.{stands_here};
ghost use Rattle.target_steps.specs.Below.stmt_scopes.specs.Refused.{refused};
ghost use Rattle.stmt_targets.specs.Naming.{IsOwned, written_as};

use crate::looked_for::{named_alone, named_behind};
use crate::named::{Named, written_form};
use target_steps::form_behind;
use target_steps::handed::check_scopes::Refusals;
use target_steps::handed::stmt_scopes::Stands;
use type_forms::Form;
use vdm_kinds::{OutOfMemory, Place};
use vdm_tree::{Target, TargetStep};

/// What the name of a target stands for.
pub(crate) fn target_named<'t>(stands: Stands<'t>, target: &Target) -> Named<'t>
    ensures named { written_as stands.entry.here.setting (held stands.entry.here.locals.now) result ≡ written (spec_here stands.entry.here) (stands_here stands.entry) (target_view target.now) }
    ensures owned { IsOwned (spec_here stands.entry.here) result }
{
    match target {
        Target::Name(name, _, place) => named_alone(stands, *name, *place),
        Target::Qualified(class, name, name_place, _, place) => {
            named_behind(stands.here.setting, *class, *name, *name_place, *place)
        }
    }
}

/// Where a target stands.
pub(crate) fn place_of_target(target: &Target) -> Place
    ensures { result ≡ target_place (target_view target.now) }
{
    match target {
        Target::Name(_, _, place) | Target::Qualified(_, _, _, _, place) => *place,
    }
}

// The steps into it.
fn steps_of(target: &Target) -> &[TargetStep]
    ensures { map target_step_view result.now ≡ target_steps (target_view target.now) }
{
    match target {
        Target::Name(_, steps, _) => steps.as_slice(),
        Target::Qualified(_, _, _, steps, _) => steps.as_slice(),
    }
}

/// The form of what is assigned to a target; what is refused of it and of the steps into it is noted.
pub(crate) fn target_form(
    stands: Stands<'_>,
    target: &Target,
    refusals: &mut Refusals,
) -> Result<Form, OutOfMemory>
    ensures { IfOk result (λ form. (rest : FormTree → Checked) → refused (first_in refusals.old)
        (refusing (written (spec_here stands.entry.here) (stands_here stands.entry) (target_view target.now)).refusals
        (steps_in (spec_here stands.entry.here) (stands_here stands.entry) (target_place (target_view target.now))
        (written (spec_here stands.entry.here) (stands_here stands.entry) (target_view target.now)).form
        (target_steps (target_view target.now)) rest))
        ≡ refused (first_in refusals.new) (rest form)) }
{
    let named = target_named(stands, target);
    let form = written_form(stands.here.alloc, stands.here.setting, named, refusals)?;
    form_behind(
        stands,
        place_of_target(target),
        form,
        steps_of(target),
        refusals,
    )
}
