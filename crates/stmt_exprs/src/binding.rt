// Binds over sets.

ghost use Rattle.std.specs.Prelude.{◌≡◌, List, map, IfOk, OnOk, option_map};
ghost use Rattle.abstract_syntax.specs.Expressions.{bind_in};
ghost use Rattle.expr_tree.specs.View.{bind_view, boxed_view};
ghost use Rattle.class_checks.specs.Expressions.{where_true};
ghost use Rattle.class_checks.specs.Results.{Checked, first_among};
ghost use Rattle.class_checks.specs.Scopes.{LocalForm as LocalTree, ScopeTree};
ghost use Rattle.spec_checks.specs.Statements.{done, maybe_of};
ghost use Rattle.spec_checks.specs.Targets.{StmtScope};
ghost use Rattle.stmt_scopes.specs.Below.check_scopes.specs.Told.{first_in};
ghost use Rattle.stmt_scopes.specs.Below.check_patterns.specs.Shown.{local_view, patterns_of};
ghost use Rattle.stmt_scopes.specs.Below.check_frames.specs.Meant.{at, scope_here, spec_here};
ghost use Rattle.stmt_scopes.specs.Standing.{standing_of, stands_here};
ghost use Rattle.stmt_scopes.specs.Refused.{refused};
ghost use Rattle.stmt_exprs.specs.Behind.{bind_then, found_then, inside_then, set_then};

use crate::brackets::refuse_givens;
use crate::wanting::{expr_form, refuse_condition};
use expr_tree::{Bind, Expr};
use stmt_scopes::handed::check_frames::Here;
use stmt_scopes::handed::check_patterns::{LocalForm, Patterns, inside};
use stmt_scopes::handed::check_scopes::{Locals, Refusals};
use stmt_scopes::{Standing, Stands, moved, names_of};
use type_check::handed::check_binds::{set_faults, with_elements};
use type_check::handed::check_steps::place_of;
use vdm_kinds::OutOfMemory;

/// Where that stands which stands inside a bind under a condition; what is refused in both is noted.
pub fn inside_bind(
    stands: Stands<'_>,
    bind: &Box<Bind>,
    condition: &Option<Box<Expr>>,
    refusals: &mut Refusals,
) -> Result<Standing, OutOfMemory>
    ensures { IfOk result (λ standing. (rest : StmtScope → Checked) → refused (first_in refusals.old) (bind_then (spec_here stands.entry.here) (stands_here stands.entry) (bind_view bind.now.value) (maybe_of (option_map boxed_view condition.now)) rest) ≡ refused (first_in refusals.new) (rest (standing_of stands.entry standing))) }
{
    inside_condition(
        stands,
        Patterns::Many(&bind.patterns),
        &bind.set,
        condition,
        refusals,
    )
}

// The same of a bind by its patterns and its set.
fn inside_condition(
    stands: Stands<'_>,
    patterns: Patterns<'_>,
    set: &Box<Expr>,
    condition: &Option<Box<Expr>>,
    refusals: &mut Refusals,
) -> Result<Standing, OutOfMemory>
    ensures { IfOk result (λ standing. (rest : StmtScope → Checked) → refused (first_in refusals.old) (bind_then (spec_here stands.entry.here) (stands_here stands.entry) (bind_in (patterns_of patterns.entry) (boxed_view set.now)) (maybe_of (option_map boxed_view condition.now)) rest) ≡ refused (first_in refusals.new) (rest (standing_of stands.entry standing))) }
{
    let locals = inside_elements(stands.here, patterns, set, refusals)?;
    refuse_condition_in(stands.here, &locals, condition, refusals)?;
    let names = names_of(stands.here.alloc, patterns)?;
    moved(stands, locals, names.as_slice())
}

// The condition, which stands where these locals are.
fn refuse_condition_in(
    here: Here<'_>,
    locals: &Locals,
    condition: &Option<Box<Expr>>,
    refusals: &mut Refusals,
) -> Result<(), OutOfMemory>
    ensures { OnOk result (first_in refusals.new ≡ first_among (first_in refusals.old) (where_true (spec_here here.entry) (at here.entry.setting locals.now) (maybe_of (option_map boxed_view condition.now)) done).refusals) }
{
    let here = Here { locals, ..here };
    refuse_condition(here, condition, refusals)
}

/// Where that stands which stands inside patterns that are matched with the elements of a set; what is refused in them is noted.
pub fn inside_set(
    stands: Stands<'_>,
    patterns: Patterns<'_>,
    set: &Box<Expr>,
    refusals: &mut Refusals,
) -> Result<Standing, OutOfMemory>
    ensures { IfOk result (λ standing. (rest : StmtScope → Checked) → refused (first_in refusals.old) (set_then (spec_here stands.entry.here) (stands_here stands.entry) (patterns_of patterns.entry) (boxed_view set.now) rest) ≡ refused (first_in refusals.new) (rest (standing_of stands.entry standing))) }
{
    let locals = inside_elements(stands.here, patterns, set, refusals)?;
    let names = names_of(stands.here.alloc, patterns)?;
    moved(stands, locals, names.as_slice())
}

// The locals inside patterns that are matched with the elements of a set.
fn inside_elements(
    here: Here<'_>,
    patterns: Patterns<'_>,
    set: &Box<Expr>,
    refusals: &mut Refusals,
) -> Result<Locals, OutOfMemory>
    ensures { IfOk result (λ locals. (rest : ScopeTree → Checked) → refused (first_in refusals.old) (inside_then (spec_here here.entry) (scope_here here.entry) (patterns_of patterns.entry) (boxed_view set.now) rest) ≡ refused (first_in refusals.new) (rest (at here.entry.setting locals))) }
{
    let found = elements_found(here, patterns, set, refusals)?;
    inside(here.alloc, here.locals, found.as_slice())
}

// What patterns bind that are matched with the elements of a set.
fn elements_found(
    here: Here<'_>,
    patterns: Patterns<'_>,
    set: &Box<Expr>,
    refusals: &mut Refusals,
) -> Result<Vec<LocalForm>, OutOfMemory>
    ensures { IfOk result (λ all. (rest : List LocalTree → Checked) → refused (first_in refusals.old) (found_then (spec_here here.entry) (scope_here here.entry) (patterns_of patterns.entry) (boxed_view set.now) rest) ≡ refused (first_in refusals.new) (rest (map local_view all.items))) }
{
    let form = expr_form(here, set, refusals)?;
    set_faults(here, patterns, place_of(set), &form, refusals)?;
    refuse_givens(here, patterns, refusals)?;
    with_elements(here, patterns, Vec::new(here.alloc), form)
}
