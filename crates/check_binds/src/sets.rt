// Sets of binds.

ghost use Rattle.std.specs.Prelude.{◌≡◌, IfOk, OnOk, map};
ghost use Rattle.expr_tree.specs.View.{bind_trees, bind_view};
ghost use Rattle.class_checks.specs.Expressions.{bound_in, set_faults};
ghost use Rattle.class_checks.specs.Results.{first_among};
ghost use Rattle.class_checks.specs.Scopes.{inside};
ghost use Rattle.check_steps.specs.Below.check_scopes.specs.Told.{first_in, told};
ghost use Rattle.check_steps.specs.Below.check_patterns.specs.Shown.{local_view, patterns_of};
ghost use Rattle.check_steps.specs.Below.check_frames.specs.Meant.{bind_behind, bind_step_check, bound_behind, boxed, def_behind, definitions_behind, iota_behind, iota_bound, next_check, scope_here, spec_here};

use crate::definitions::{def_behind, definitions_behind};
use check_steps::givens_next;
use check_steps::handed::check_frames::{After, BindStep, Binds, Goal, Here, Next};
use check_steps::handed::check_patterns::{
    LocalForm, Patterns, binds_each, elements_of, givens, inside, patterns_faults,
};
use check_steps::handed::check_scopes::Refusals;
use check_steps::handed::check_shapes::{Kind, is_like};
use expr_tree::{Defined, Expr};
use type_forms::Form;
use vdm_kinds::{OutOfMemory, Place, SpecKind};

/// What follows from the form of what patterns are matched with.
pub fn bind_step_next<'t>(
    here: Here<'_>,
    step: BindStep<'t>,
    form: Form,
    refusals: &mut Refusals,
) -> Result<Next<'t>, OutOfMemory>
    ensures { IfOk result (λ next. told (first_in refusals.old) (bind_step_check here.entry.setting (scope_here here.entry) step.entry form) ≡ told (first_in refusals.new) (next_check here.entry.setting next)) }
{
    match step {
        BindStep::Set {
            patterns,
            place,
            rest,
        } => set_behind(here, patterns, place, rest, form, refusals),
        BindStep::Iota {
            patterns,
            place,
            condition,
        } => iota_behind(here, patterns, place, condition, form, refusals),
        BindStep::Defined {
            definitions,
            place,
            body,
        } => definitions_behind(here, definitions, place, body, form, refusals),
        BindStep::Def { pattern, body } => def_behind(here, pattern, body, form, refusals),
    }
}

// The set of a bind at the place has this form.
fn set_behind<'t>(
    here: Here<'_>,
    patterns: Patterns<'t>,
    place: Place,
    rest: Binds<'t>,
    form: Form,
    refusals: &mut Refusals,
) -> Result<Next<'t>, OutOfMemory>
    ensures { IfOk result (λ next. told (first_in refusals.old) (bind_behind here.entry.setting (scope_here here.entry) (map local_view rest.entry.found.items) (patterns_of patterns.entry) place (bind_trees (map bind_view rest.entry.more.now)) rest.entry.inside form) ≡ told (first_in refusals.new) (next_check here.entry.setting next)) }
{
    set_faults(here, patterns, place, &form, refusals)?;
    bound_next(here, patterns, rest, form)
}

fn bound_next<'t>(
    here: Here<'_>,
    patterns: Patterns<'t>,
    rest: Binds<'t>,
    form: Form,
) -> Result<Next<'t>, OutOfMemory>
    ensures { IfOk result (λ next. bound_behind here.entry.setting (scope_here here.entry) (map local_view rest.entry.found.items) (patterns_of patterns.entry) (bind_trees (map bind_view rest.entry.more.now)) rest.entry.inside form ≡ next_check here.entry.setting next) }
{
    let Binds {
        found,
        more,
        inside,
    } = rest;
    let found = with_elements(here, patterns, found, form)?;
    let exprs = givens(here.alloc, patterns)?;
    let locals = here.locals.copy()?;
    let goal = Goal::Binds(Binds {
        found,
        more,
        inside,
    });
    givens_next(here, exprs, 0, After { goal, locals })
}

/// What the patterns bind of an element of a set of this form, behind what is found already.
pub fn with_elements(
    here: Here<'_>,
    patterns: Patterns<'_>,
    found: Vec<LocalForm>,
    form: Form,
) -> Result<Vec<LocalForm>, OutOfMemory>
    ensures { IfOk result (λ all. map local_view all.items ≡ bound_in (spec_here here.entry) (scope_here here.entry) (map local_view found.items) (patterns_of patterns.entry) form) }
{
    let elements = elements_of(here.alloc, here.setting, &form)?;
    binds_each(here.alloc, here.setting, &elements, patterns, found)
}

/// Notes what is refused where patterns are matched with the elements of a set: the set at the place has to be one, and each record
/// in the patterns has its type.
pub fn set_faults(
    here: Here<'_>,
    patterns: Patterns<'_>,
    place: Place,
    form: &Form,
    refusals: &mut Refusals,
) -> Result<(), OutOfMemory>
    ensures { OnOk result (first_in refusals.new ≡ first_among (first_in refusals.old) (set_faults (spec_here here.entry) (scope_here here.entry) (patterns_of patterns.entry) place form.now)) }
{
    let fits = is_like(here.setting, form, Kind::Set);
    refusals.refuse_if(!fits, SpecKind::NoCommonValue, place);
    patterns_faults(here.setting, patterns, refusals)
}

// The set of an `iota` at the place has this form.
fn iota_behind<'t>(
    here: Here<'_>,
    patterns: Patterns<'t>,
    place: Place,
    condition: &'t Box<Expr>,
    form: Form,
    refusals: &mut Refusals,
) -> Result<Next<'t>, OutOfMemory>
    ensures { IfOk result (λ next. told (first_in refusals.old) (iota_behind here.entry.setting (scope_here here.entry) (patterns_of patterns.entry) place (boxed condition.entry) form) ≡ told (first_in refusals.new) (next_check here.entry.setting next)) }
{
    set_faults(here, patterns, place, &form, refusals)?;
    iota_next(here, patterns, condition, form)
}

fn iota_next<'t>(
    here: Here<'_>,
    patterns: Patterns<'t>,
    condition: &'t Box<Expr>,
    form: Form,
) -> Result<Next<'t>, OutOfMemory>
    ensures { IfOk result (λ next. iota_bound here.entry.setting (scope_here here.entry) (patterns_of patterns.entry) (boxed condition.entry) form ≡ next_check here.entry.setting next) }
{
    let alloc = here.alloc;
    let elements = elements_of(alloc, here.setting, &form)?;
    let found = binds_each(alloc, here.setting, &elements, patterns, Vec::new(alloc))?;
    let exprs = givens(alloc, patterns)?;
    let locals = inside(alloc, here.locals, found.as_slice())?;
    let goal = Goal::Iota {
        condition,
        form: elements,
    };
    givens_next(here, exprs, 0, After { goal, locals })
}
