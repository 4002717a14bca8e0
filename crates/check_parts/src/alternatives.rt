// Values that are chosen.

ghost use Rattle.std.specs.Prelude.{◌≡◌, IfOk, map};
ghost use Rattle.expr_tree.specs.View.{branch_trees, branch_view, case_view, maybe_view};
ghost use Rattle.class_checks.specs.Expressions.{want_faults};
ghost use Rattle.class_checks.specs.Operators.{truth};
ghost use Rattle.class_checks.specs.Results.{gives, refusing};
ghost use Rattle.form_meaning.specs.Forms.{joined as joined_forms, no_form};
ghost use Rattle.check_series.specs.Below.check_scopes.specs.Told.{first_in, told};
ghost use Rattle.check_series.specs.Below.check_frames.specs.Meant.{boxed, branches_check, cases_check, choice_check, next_check, scope_here, spec_here, then_check, values_check};

use check_series::handed::check_frames::{Branches, CaseValues, Cases, Choice, Here, Next, Step};
use check_series::handed::check_scopes::Refusals;
use check_series::handed::check_shapes::want_truth;
use check_series::handed::check_steps::part_of;
use check_series::{branches_next, cases_next, values_next};
use expr_tree::{Case, Expr};
use type_forms::{Form, joined};
use vdm_kinds::{OutOfMemory, Place};

/// What follows from the form of a value that is chosen, or of what it is chosen by.
pub(crate) fn choice_next<'t>(
    here: Here<'_>,
    choice: Choice<'t>,
    form: Form,
    refusals: &mut Refusals,
) -> Result<Next<'t>, OutOfMemory>
    ensures { IfOk result (λ next. told (first_in refusals.old) (choice_check here.entry.setting (scope_here here.entry) choice.entry form) ≡ told (first_in refusals.new) (next_check here.entry.setting next)) }
{
    match choice {
        Choice::If { place, value, rest } => if_behind(here, place, value, rest, form, refusals),
        Choice::Then { rest } => then_behind(here, rest, form),
        Choice::Last { known } => last_behind(here, known, form),
        Choice::Subject { cases, others } => subject_behind(here, cases, others, form, refusals),
        Choice::CaseValue { known, values } => value_behind(here, known, values, form, refusals),
    }
}

// A condition of an `if` at the place has this form.
fn if_behind<'t>(
    here: Here<'_>,
    place: Place,
    value: &'t Box<Expr>,
    rest: Branches<'t>,
    form: Form,
    refusals: &mut Refusals,
) -> Result<Next<'t>, OutOfMemory>
    ensures { IfOk result (λ next. told (first_in refusals.old) (refusing (want_faults (spec_here here.entry) truth place form) (then_check here.entry.setting (scope_here here.entry) rest.entry.known (boxed value.entry) (branch_trees (map branch_view rest.entry.branches.now)) (boxed rest.entry.otherwise))) ≡ told (first_in refusals.new) (next_check here.entry.setting next)) }
{
    want_truth(here.setting, place, &form, refusals);
    then_next(here, value, rest)
}

fn then_next<'t>(
    here: Here<'_>,
    value: &'t Box<Expr>,
    rest: Branches<'t>,
) -> Result<Next<'t>, OutOfMemory>
    ensures { IfOk result (λ next. then_check here.entry.setting (scope_here here.entry) rest.entry.known (boxed value.entry) (branch_trees (map branch_view rest.entry.branches.now)) (boxed rest.entry.otherwise) ≡ next_check here.entry.setting next) }
{
    part_of(here, value, Step::Choice(Choice::Then { rest }))
}

// The value behind a condition has this form.
fn then_behind<'t>(here: Here<'_>, rest: Branches<'t>, form: Form) -> Result<Next<'t>, OutOfMemory>
    ensures { IfOk result (λ next. branches_check here.entry.setting (scope_here here.entry) (joined_forms rest.entry.known form) rest.entry ≡ next_check here.entry.setting next) }
{
    let Branches {
        known,
        branches,
        otherwise,
    } = rest;
    let known = joined(here.alloc, known, &form)?;
    let rest = Branches {
        known,
        branches,
        otherwise,
    };
    branches_next(here, rest)
}

// The last value has this form.
fn last_behind<'t>(here: Here<'_>, known: Form, form: Form) -> Result<Next<'t>, OutOfMemory>
    ensures { IfOk result (λ next. gives (joined_forms known form) ≡ next_check here.entry.setting next) }
{
    let form = joined(here.alloc, known, &form)?;
    Ok(Next::Gives(form))
}

// What `cases` looks at has this form.
fn subject_behind<'t>(
    here: Here<'_>,
    cases: &'t [Case],
    others: &'t Option<Box<Expr>>,
    form: Form,
    refusals: &mut Refusals,
) -> Result<Next<'t>, OutOfMemory>
    ensures { IfOk result (λ next. told (first_in refusals.old) (cases_check here.entry.setting (scope_here here.entry) form no_form (map case_view cases.entry.now) (maybe_view others.entry.now)) ≡ told (first_in refusals.new) (next_check here.entry.setting next)) }
{
    let all = Cases {
        form,
        cases,
        others,
    };
    cases_next(here, Form::nothing(), all, refusals)
}

// What stands behind patterns, in one scope, has this form.
fn value_behind<'t>(
    here: Here<'_>,
    known: Form,
    values: CaseValues<'t>,
    form: Form,
    refusals: &mut Refusals,
) -> Result<Next<'t>, OutOfMemory>
    ensures { IfOk result (λ next. told (first_in refusals.old) (values_check here.entry.setting (scope_here here.entry) (joined_forms known form) values.entry) ≡ told (first_in refusals.new) (next_check here.entry.setting next)) }
{
    let known = joined(here.alloc, known, &form)?;
    values_next(here, known, values, refusals)
}
