// Assignments.

ghost use Rattle.std.specs.Prelude.{◌≡◌, OnOk, map};
ghost use Rattle.expr_tree.specs.View.{boxed_view};
ghost use Rattle.vdm_tree.specs.StmtView.{assignment_view, target_view};
ghost use Rattle.class_checks.specs.Results.{first_among};
ghost use Rattle.spec_checks.specs.Targets.{all_assigned, assigned};
ghost use Rattle.spec_checks.specs.Statements.{done};
ghost use Rattle.target_steps.specs.Below.check_scopes.specs.Told.{first_in};
ghost use Rattle.target_steps.specs.Below.check_frames.specs.Meant.{spec_here};
ghost use Rattle.target_steps.specs.Below.stmt_scopes.specs.Standing.{stands_here};

use crate::targets::target_form;
use expr_tree::Expr;
use target_steps::handed::check_scopes::Refusals;
use target_steps::handed::stmt_exprs::refuse_unlike;
use target_steps::handed::stmt_scopes::Stands;
use vdm_kinds::OutOfMemory;
use vdm_tree::{Assignment, Target};

/// Notes what is refused in an assignment: its target, the steps into it, and a value that it can't hold.
pub fn refuse_assigned(
    stands: Stands<'_>,
    target: &Target,
    value: &Box<Expr>,
    refusals: &mut Refusals,
) -> Result<(), OutOfMemory>
    ensures { OnOk result (first_in refusals.new ≡ first_among (first_in refusals.old) (assigned (spec_here stands.entry.here) (stands_here stands.entry) (record { target = target_view target.now; value = boxed_view value.now }) done).refusals) }
{
    let wanted = target_form(stands, target, refusals)?;
    refuse_unlike(stands, &wanted, value, refusals)
}

/// Notes what is refused in assignments, one behind the other.
pub fn refuse_assignments(
    stands: Stands<'_>,
    assignments: &[Assignment],
    refusals: &mut Refusals,
) -> Result<(), OutOfMemory>
    ensures { OnOk result (first_in refusals.new ≡ first_among (first_in refusals.old) (all_assigned (spec_here stands.entry.here) (stands_here stands.entry) (map assignment_view assignments.now) done).refusals) }
{
    for assignment in assignments {
        refuse_assigned(stands, &assignment.target, &assignment.value, refusals)?;
    }
    Ok(())
}
