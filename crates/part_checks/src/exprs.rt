// Expressions of definitions.

ghost use Rattle.std.specs.Prelude.{◌≡◌, OnOk};
ghost use Rattle.class_checks.specs.Expressions.{check};
ghost use Rattle.class_checks.specs.Operators.{truth};
ghost use Rattle.class_checks.specs.Results.{first_among};
ghost use Rattle.definition_scopes.specs.Below.check_scopes.specs.Told.{first_in};
ghost use Rattle.type_check.specs.Below.check_frames.specs.Meant.{scope_here, spec_here};
ghost use Rattle.expr_tree.specs.View.{boxed_view};
ghost use Rattle.part_checks.specs.Wanting.{wanted_in};

use definition_scopes::handed::check_scopes::Refusals;
use expr_tree::Expr;
use type_check::form_here;
use type_check::handed::check_frames::Here;
use type_check::handed::check_shapes::{want_like, want_truth};
use type_forms::Form;
use vdm_kinds::OutOfMemory;

/// Notes what is refused in an expression.
pub fn refuse_expr(
    here: Here<'_>,
    expr: &Box<Expr>,
    refusals: &mut Refusals,
) -> Result<(), OutOfMemory>
    ensures { OnOk result (first_in refusals.new ≡ first_among (first_in refusals.old) (check (spec_here here.entry) (scope_here here.entry) (boxed_view expr.now)).refusals) }
{
    let _form = form_here(here, expr, refusals)?;
    Ok(())
}

/// Notes what is refused in an expression that has to meet a form.
pub fn refuse_wanted(
    here: Here<'_>,
    wanted: &Form,
    expr: &Box<Expr>,
    refusals: &mut Refusals,
) -> Result<(), OutOfMemory>
    ensures { OnOk result (first_in refusals.new ≡ first_among (first_in refusals.old) (wanted_in (spec_here here.entry) (scope_here here.entry) wanted.now (boxed_view expr.now))) }
{
    let form = form_here(here, expr, refusals)?;
    want_like(here.setting, wanted, expr.place(), &form, refusals);
    Ok(())
}

/// Notes what is refused in a condition.
pub(crate) fn refuse_condition(
    here: Here<'_>,
    condition: &Box<Expr>,
    refusals: &mut Refusals,
) -> Result<(), OutOfMemory>
    ensures { OnOk result (first_in refusals.new ≡ first_among (first_in refusals.old) (wanted_in (spec_here here.entry) (scope_here here.entry) truth (boxed_view condition.now))) }
{
    let form = form_here(here, condition, refusals)?;
    want_truth(here.setting, condition.place(), &form, refusals);
    Ok(())
}
