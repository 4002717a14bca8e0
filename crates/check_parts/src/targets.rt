// What is applied, and what a member is selected of.

ghost use Rattle.std.specs.Prelude.{◌≡◌, IfOk};
ghost use Rattle.check_series.specs.Below.check_scopes.specs.Told.{first_in, told};
ghost use Rattle.check_series.specs.Below.check_scopes.specs.declared.setting.Setting.{Setting as AnySetting};
ghost use Rattle.check_series.specs.Below.check_calls.specs.Selecting.{use_view};
ghost use Rattle.check_series.specs.Below.check_frames.specs.Meant.{arguments_of, next_check, scope_here, target_check, target_of_class_check, use_of, value_behind};

use check_series::handed::check_calls::{
    Call, Use, selected_callee, selected_of_class, value_callee,
};
use check_series::handed::check_frames::{Here, Next, Rest, Way};
use check_series::handed::check_scopes::Refusals;
use check_series::handed::check_steps::called_next;
use expr_tree::Expr;
use type_forms::Form;
use vdm_kinds::{NameAt, OutOfMemory, Place};

/// What is applied to the arguments has this form.
pub(crate) fn head_behind<'t>(
    here: Here<'_>,
    head_place: Place,
    arguments: &'t [Expr],
    place: Place,
    form: Form,
    refusals: &mut Refusals,
) -> Result<Next<'t>, OutOfMemory>
    ensures { IfOk result (λ next. told (first_in refusals.old) (value_behind here.entry.setting (scope_here here.entry) head_place arguments.entry place form) ≡ told (first_in refusals.new) (next_check here.entry.setting next)) }
{
    let call = Call {
        head_place,
        count: arguments.len(),
        place,
    };
    let callee = value_callee(here.alloc, here.setting, refusals, &form, call)?;
    called_next(here, callee, Rest::Items(arguments))
}

/// What a member is selected of has this form.
pub(crate) fn target_behind<'t>(
    here: Here<'_>,
    target_place: Place,
    named: NameAt,
    way: Way<'t>,
    form: Form,
    refusals: &mut Refusals,
) -> Result<Next<'t>, OutOfMemory>
    ensures { IfOk result (λ next. told (first_in refusals.old) (target_check here.entry.setting (scope_here here.entry) target_place named.name named.place way.entry form) ≡ told (first_in refusals.new) (next_check here.entry.setting next)) }
{
    let Here { alloc, setting, .. } = here;
    let used = used_so(way);
    let callee = selected_callee(alloc, setting, refusals, used, target_place, named, &form)?;
    called_next(here, callee, arguments_of(way))
}

/// ... with the class before its name.
pub(crate) fn target_of_class_behind<'t>(
    here: Here<'_>,
    target_place: Place,
    class: NameAt,
    named: NameAt,
    way: Way<'t>,
    form: Form,
    refusals: &mut Refusals,
) -> Result<Next<'t>, OutOfMemory>
    ensures { IfOk result (λ next. told (first_in refusals.old) (target_of_class_check here.entry.setting (scope_here here.entry) target_place class.name class.place named.name named.place way.entry form) ≡ told (first_in refusals.new) (next_check here.entry.setting next)) }
{
    let Here { alloc, setting, .. } = here;
    let used = used_so(way);
    let callee = selected_of_class(
        alloc,
        setting,
        refusals,
        used,
        target_place,
        class,
        named,
        &form,
    )?;
    called_next(here, callee, arguments_of(way))
}

fn used_so(way: Way<'_>) -> Use
    ensures { (setting : AnySetting) → use_view result ≡ use_of setting way.entry }
{
    match way {
        Way::Read => Use::Read,
        Way::Applied {
            head_place,
            arguments,
            place,
        } => Use::Applied(Call {
            head_place,
            count: arguments.len(),
            place,
        }),
    }
}

fn arguments_of<'t>(way: Way<'t>) -> Rest<'t>
    ensures { (setting : AnySetting) → result ≡ arguments_of setting way.entry }
{
    match way {
        Way::Read => Rest::Nothing,
        Way::Applied { arguments, .. } => Rest::Items(arguments),
    }
}
