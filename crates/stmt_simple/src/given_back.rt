// Calls and returns, and exits.

ghost use Rattle.std.specs.Prelude.{◌≡◌, Some, OnOk, option_map};
ghost use Rattle.vdm_kinds.specs.declared.place.Place.{Place as PlaceOf};
ghost use Rattle.abstract_syntax.specs.Statements.{call, exits, returns};
ghost use Rattle.expr_tree.specs.View.{boxed_view};
ghost use Rattle.class_checks.specs.Results.{first_among};
ghost use Rattle.spec_checks.specs.Statements.{call_faults, check_stmt, returned_faults};
ghost use Rattle.stmt_targets.specs.Below.check_scopes.specs.Told.{first_in, spec_in};
ghost use Rattle.stmt_targets.specs.Below.check_frames.specs.Meant.{spec_here};
ghost use Rattle.stmt_targets.specs.Below.stmt_scopes.specs.Standing.{returned_view, stands_here};

use expr_tree::Expr;
use stmt_targets::handed::check_scopes::{Refusals, Setting};
use stmt_targets::handed::check_shapes::want_like;
use stmt_targets::handed::check_steps::place_of;
use stmt_targets::handed::stmt_exprs::refuse_expr;
use stmt_targets::handed::stmt_scopes::{Returned, Stands};
use stmt_targets::handed::type_check::form_here;
use type_forms::{Form, Node};
use vdm_kinds::{OutOfMemory, Place, SpecKind};

/// A call, whose value is given back where it gives one.
pub(crate) fn refuse_call(
    stands: Stands<'_>,
    application: &Box<Expr>,
    refusals: &mut Refusals,
) -> Result<(), OutOfMemory>
    ensures { (place : PlaceOf) → OnOk result (first_in refusals.new ≡ first_among (first_in refusals.old) (check_stmt (spec_here stands.entry.here) (stands_here stands.entry) (call (boxed_view application.now) place)).refusals) }
{
    let form = form_here(stands.here, application, refusals)?;
    let place = place_of(application);
    refuse_called(stands.here.setting, stands.returned, place, &form, refusals);
    Ok(())
}

// A call that gives no value, or may give any, goes on.
fn refuse_called(
    setting: Setting<'_>,
    returned: &Returned,
    place: Place,
    form: &Form,
    refusals: &mut Refusals,
)
    ensures { first_in refusals.new ≡ first_among (first_in refusals.old) (call_faults (spec_in setting.entry) (returned_view returned.now) place form.now) }
{
    match form.node() {
        Node::Any | Node::Nothing => {}
        Node::OneOf(_) => refuse_given_back(setting, returned, place, form, refusals),
    }
}

// A value at the place is given back.
fn refuse_given_back(
    setting: Setting<'_>,
    returned: &Returned,
    place: Place,
    form: &Form,
    refusals: &mut Refusals,
)
    ensures { first_in refusals.new ≡ first_among (first_in refusals.old) (returned_faults (spec_in setting.entry) (returned_view returned.now) place form.now) }
{
    match returned {
        Returned::Anything => {}
        Returned::NoValue => refusals.refuse(SpecKind::NoCommonValue, place),
        Returned::AValue(wanted) => want_like(setting, wanted, place, form, refusals),
    }
}

/// A return, which may give back no value also where one is due.
pub(crate) fn refuse_return(
    stands: Stands<'_>,
    value: &Option<Box<Expr>>,
    refusals: &mut Refusals,
) -> Result<(), OutOfMemory>
    ensures { (place : PlaceOf) → OnOk result (first_in refusals.new ≡ first_among (first_in refusals.old) (check_stmt (spec_here stands.entry.here) (stands_here stands.entry) (returns (option_map boxed_view value.now) place)).refusals) }
{
    match value {
        Some(value) => refuse_return_of(stands, value, refusals),
        None => Ok(()),
    }
}

fn refuse_return_of(
    stands: Stands<'_>,
    value: &Box<Expr>,
    refusals: &mut Refusals,
) -> Result<(), OutOfMemory>
    ensures { (place : PlaceOf) → OnOk result (first_in refusals.new ≡ first_among (first_in refusals.old) (check_stmt (spec_here stands.entry.here) (stands_here stands.entry) (returns (Some (boxed_view value.now)) place)).refusals) }
{
    let form = form_here(stands.here, value, refusals)?;
    let place = place_of(value);
    refuse_given_back(stands.here.setting, stands.returned, place, &form, refusals);
    Ok(())
}

/// An exit, with any value.
pub(crate) fn refuse_exit(
    stands: Stands<'_>,
    value: &Option<Box<Expr>>,
    refusals: &mut Refusals,
) -> Result<(), OutOfMemory>
    ensures { (place : PlaceOf) → OnOk result (first_in refusals.new ≡ first_among (first_in refusals.old) (check_stmt (spec_here stands.entry.here) (stands_here stands.entry) (exits (option_map boxed_view value.now) place)).refusals) }
{
    match value {
        Some(value) => refuse_expr(stands.here, value, refusals),
        None => Ok(()),
    }
}
