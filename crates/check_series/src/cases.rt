// The alternatives of a `cases`.

ghost use Rattle.std.specs.Prelude.{◌≡◌, IfOk, map, drop};
ghost use Rattle.expr_tree.specs.View.{case_view, maybe_view, pattern_views, view_of};
ghost use Rattle.check_steps.specs.Below.check_scopes.specs.Told.{first_in, told};
ghost use Rattle.check_steps.specs.Below.check_frames.specs.Meant.{at, case_behind, case_check, cases_check, next_check, scope_here, value_check, values_check};

use crate::branching::others_next;
use check_steps::givens_next;
use check_steps::handed::check_frames::{
    After, CaseValues, Cases, Choice, Frame, Goal, Here, Next, Step,
};
use check_steps::handed::check_patterns::{Patterns, givens, patterns_faults, scopes_behind};
use check_steps::handed::check_scopes::{Locals, Refusals};
use expr_tree::Case;
use type_forms::Form;
use vdm_kinds::OutOfMemory;

/// The next of the alternatives, behind those of the form `known`; with none left, what stands behind `others`.
pub fn cases_next<'t>(
    here: Here<'_>,
    known: Form,
    all: Cases<'t>,
    refusals: &mut Refusals,
) -> Result<Next<'t>, OutOfMemory>
    ensures { IfOk result (λ next. told (first_in refusals.old) (cases_check here.entry.setting (scope_here here.entry) all.entry.form known (map case_view all.entry.cases.now) (maybe_view all.entry.others.now)) ≡ told (first_in refusals.new) (next_check here.entry.setting next)) }
{
    let Cases {
        form,
        cases,
        others,
    } = all;
    match cases {
        [] => others_next(here, known, others),
        [case, cases @ ..] => {
            let all = Cases {
                form,
                cases,
                others,
            };
            case_next(here, known, case, all, refusals)
        }
    }
}

/// What stands behind the patterns of an alternative, in the scopes that are left; then the other alternatives.
pub fn values_next<'t>(
    here: Here<'_>,
    known: Form,
    values: CaseValues<'t>,
    refusals: &mut Refusals,
) -> Result<Next<'t>, OutOfMemory>
    ensures { IfOk result (λ n. told (first_in refusals.old) (values_check here.entry.setting (scope_here here.entry) known values.entry) ≡ told (first_in refusals.new) (next_check here.entry.setting n)) }
{
    let CaseValues {
        value,
        scopes,
        next,
        all,
    } = values;
    match scopes.as_slice().get(next) {
        Some(scope) => {
            let scope = scope.copy()?;
            let values = CaseValues {
                value,
                scopes,
                next: next + 1,
                all,
            };
            value_next(here, known, scope, values)
        }
        None => cases_next(here, known, all, refusals),
    }
}

// What stands behind the patterns, in one of the scopes.
fn value_next<'t>(
    here: Here<'_>,
    known: Form,
    scope: Locals,
    values: CaseValues<'t>,
) -> Result<Next<'t>, OutOfMemory>
    ensures { IfOk result (λ n. value_check here.entry.setting (scope_here here.entry) known (at here.entry.setting scope) values.entry ≡ next_check here.entry.setting n) }
{
    let value = values.value;
    let step = Step::Choice(Choice::CaseValue { known, values });
    let locals = here.locals.copy()?;
    Ok(Next::Part(value, scope, Frame { step, locals }))
}

// The patterns of an alternative: what is refused in them, the expressions in brackets, and then what stands behind.
fn case_next<'t>(
    here: Here<'_>,
    known: Form,
    case: &'t Case,
    all: Cases<'t>,
    refusals: &mut Refusals,
) -> Result<Next<'t>, OutOfMemory>
    ensures { IfOk result (λ next. told (first_in refusals.old) (case_check here.entry.setting (scope_here here.entry) known (record { patterns = pattern_views case.entry.now.patterns.items; value = view_of case.entry.now.value.value }) all.entry) ≡ told (first_in refusals.new) (next_check here.entry.setting next)) }
{
    let patterns = Patterns::Many(&case.patterns);
    patterns_faults(here.setting, patterns, refusals)?;
    case_behind(here, known, case, all)
}

// The same once its patterns are refused where they are to be.
fn case_behind<'t>(
    here: Here<'_>,
    known: Form,
    case: &'t Case,
    all: Cases<'t>,
) -> Result<Next<'t>, OutOfMemory>
    ensures { IfOk result (λ next. case_behind here.entry.setting (scope_here here.entry) known (record { patterns = pattern_views case.entry.now.patterns.items; value = view_of case.entry.now.value.value }) all.entry ≡ next_check here.entry.setting next) }
{
    let alloc = here.alloc;
    let scopes = scopes_behind(alloc, here.setting, here.locals, &all.form, &case.patterns)?;
    let exprs = givens(alloc, Patterns::Many(&case.patterns))?;
    let values = CaseValues {
        value: &case.value,
        scopes,
        next: 0,
        all,
    };
    let goal = Goal::CaseValues { known, values };
    let locals = here.locals.copy()?;
    givens_next(here, exprs, 0, After { goal, locals })
}
