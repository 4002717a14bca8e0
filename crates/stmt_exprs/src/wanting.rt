// Expressions of statements.

ghost use Rattle.std.specs.Prelude.{◌≡◌, IfOk, OnOk, option_map};
ghost use Rattle.abstract_syntax.specs.Expressions.{given_expr};
ghost use Rattle.expr_tree.specs.View.{boxed_view};
ghost use Rattle.class_checks.specs.Expressions.{check, want_faults, where_true};
ghost use Rattle.class_checks.specs.Results.{first_among, gives};
ghost use Rattle.spec_checks.specs.Statements.{done, maybe_of, maybe_wanting, wanting};
ghost use Rattle.stmt_scopes.specs.Below.check_operators.specs.Kinds.{form_of_kind};
ghost use Rattle.stmt_scopes.specs.Below.check_scopes.specs.Told.{first_in, spec_in, told};
ghost use Rattle.stmt_scopes.specs.Below.check_frames.specs.Meant.{scope_here, spec_here};
ghost use Rattle.stmt_scopes.specs.Standing.{stands_here};

use expr_tree::Expr;
use stmt_scopes::Stands;
use stmt_scopes::handed::check_frames::Here;
use stmt_scopes::handed::check_scopes::{Refusals, Setting};
use stmt_scopes::handed::check_shapes::{Kind, is_like, want_like, want_truth};
use type_check::form_here;
use type_check::handed::check_steps::place_of;
use type_forms::Form;
use vdm_kinds::{OutOfMemory, Place, SpecKind};

/// Notes where a value does not fit that has to be of a kind.
pub fn want_kind(
    setting: Setting<'_>,
    kind: Kind,
    place: Place,
    form: &Form,
    refusals: &mut Refusals,
)
    ensures { first_in refusals.new ≡ first_among (first_in refusals.old) (want_faults (spec_in setting.entry) (form_of_kind kind) place form.now) }
{
    refusals.refuse_if(
        !is_like(setting, form, kind),
        SpecKind::NoCommonValue,
        place,
    );
}

/// The form of an expression that stands here in a box; what is refused in it is noted.
pub fn expr_form(
    here: Here<'_>,
    expr: &Box<Expr>,
    refusals: &mut Refusals,
) -> Result<Form, OutOfMemory>
    ensures { IfOk result (λ form. told (first_in refusals.old) (check (spec_here here.entry) (scope_here here.entry) (boxed_view expr.now)) ≡ told (first_in refusals.new) (gives form)) }
{
    form_here(here, expr, refusals)
}

/// Notes what is refused in an expression that may have any form.
pub fn refuse_expr(
    here: Here<'_>,
    expr: &Box<Expr>,
    refusals: &mut Refusals,
) -> Result<(), OutOfMemory>
    ensures { OnOk result (first_in refusals.new ≡ first_among (first_in refusals.old) (check (spec_here here.entry) (scope_here here.entry) (boxed_view expr.now)).refusals) }
{
    let _form = expr_form(here, expr, refusals)?;
    Ok(())
}

/// Notes what is refused in an expression that has to be of a kind.
pub fn refuse_wanting(
    stands: Stands<'_>,
    kind: Kind,
    expr: &Box<Expr>,
    refusals: &mut Refusals,
) -> Result<(), OutOfMemory>
    ensures { OnOk result (first_in refusals.new ≡ first_among (first_in refusals.old) (wanting (spec_here stands.entry.here) (stands_here stands.entry) (form_of_kind kind) (boxed_view expr.now) done).refusals) }
{
    let form = expr_form(stands.here, expr, refusals)?;
    want_kind(stands.here.setting, kind, place_of(expr), &form, refusals);
    Ok(())
}

/// Notes what is refused in an expression that has to meet a form.
pub fn refuse_unlike(
    stands: Stands<'_>,
    wanted: &Form,
    expr: &Box<Expr>,
    refusals: &mut Refusals,
) -> Result<(), OutOfMemory>
    ensures { OnOk result (first_in refusals.new ≡ first_among (first_in refusals.old) (wanting (spec_here stands.entry.here) (stands_here stands.entry) wanted.now (boxed_view expr.now) done).refusals) }
{
    let form = expr_form(stands.here, expr, refusals)?;
    want_like(stands.here.setting, wanted, place_of(expr), &form, refusals);
    Ok(())
}

/// Notes what is refused in an expression that has to be of a kind, where it is not left out.
pub fn refuse_maybe(
    stands: Stands<'_>,
    kind: Kind,
    expr: &Option<Box<Expr>>,
    refusals: &mut Refusals,
) -> Result<(), OutOfMemory>
    ensures { OnOk result (first_in refusals.new ≡ first_among (first_in refusals.old) (maybe_wanting (spec_here stands.entry.here) (stands_here stands.entry) (form_of_kind kind) (option_map boxed_view expr.now) done).refusals) }
{
    match expr {
        Some(expr) => refuse_wanting(stands, kind, expr, refusals),
        None => Ok(()),
    }
}

/// Notes what is refused in a condition, which may be left out.
pub(crate) fn refuse_condition(
    here: Here<'_>,
    condition: &Option<Box<Expr>>,
    refusals: &mut Refusals,
) -> Result<(), OutOfMemory>
    ensures { OnOk result (first_in refusals.new ≡ first_among (first_in refusals.old) (where_true (spec_here here.entry) (scope_here here.entry) (maybe_of (option_map boxed_view condition.now)) done).refusals) }
{
    match condition {
        Some(condition) => refuse_given_condition(here, condition, refusals),
        None => Ok(()),
    }
}

fn refuse_given_condition(
    here: Here<'_>,
    condition: &Box<Expr>,
    refusals: &mut Refusals,
) -> Result<(), OutOfMemory>
    ensures { OnOk result (first_in refusals.new ≡ first_among (first_in refusals.old) (where_true (spec_here here.entry) (scope_here here.entry) (given_expr (boxed_view condition.now)) done).refusals) }
{
    let form = expr_form(here, condition, refusals)?;
    want_truth(here.setting, place_of(condition), &form, refusals);
    Ok(())
}
