// Loops over numbers, sets and sequences.

ghost use Rattle.std.specs.Prelude.{◌≡◌, ◌∷◌, [], IfOk, option_map};
ghost use Rattle.vdm_kinds.specs.declared.place.Place.{Place as PlaceOf};
ghost use Rattle.abstract_syntax.specs.Statements.{for_numbers, for_sequence, for_set};
ghost use Rattle.expr_tree.specs.View.{boxed_view, pattern_view};
ghost use Rattle.vdm_tree.specs.StmtView.{boxed_stmt};
ghost use Rattle.class_checks.specs.Operators.{number};
ghost use Rattle.spec_checks.specs.Statements.{check_stmt, inside_names};
ghost use Rattle.stmt_pending.specs.Below.check_scopes.specs.Told.{first_in};
ghost use Rattle.stmt_pending.specs.Below.check_frames.specs.Meant.{spec_here};
ghost use Rattle.stmt_pending.specs.Below.stmt_scopes.specs.Standing.{standing_of, stands_here};
ghost use Rattle.stmt_pending.specs.Below.stmt_scopes.specs.Refused.{refused};
ghost use Rattle.stmt_pending.specs.Meant.{next_check};

use expr_tree::{Expr, Pattern};
use stmt_exprs::handed::check_steps::place_of;
use stmt_exprs::handed::type_check::form_here;
use stmt_exprs::{
    inside_pattern, inside_set, refuse_maybe, refuse_pattern, refuse_wanting, want_kind,
};
use stmt_pending::handed::check_patterns::{Patterns, items_of};
use stmt_pending::handed::check_scopes::Refusals;
use stmt_pending::handed::check_shapes::Kind;
use stmt_pending::handed::stmt_scopes::{Standing, Stands, hidden_by};
use stmt_pending::{Next, next_in};
use vdm_kinds::{Name, OutOfMemory};
use vdm_tree::Stmt;

/// `for i = a to b by c do s`
pub(crate) fn numbers_next<'t>(
    stands: Stands<'_>,
    name: Name,
    first: &Box<Expr>,
    last: &Box<Expr>,
    step: &Option<Box<Expr>>,
    body: &'t Box<Stmt>,
    refusals: &mut Refusals,
) -> Result<Next<'t>, OutOfMemory>
    ensures { (name_place place : PlaceOf) → IfOk result (λ next. refused (first_in refusals.old) (check_stmt (spec_here stands.entry.here) (stands_here stands.entry) (for_numbers name name_place (boxed_view first.now) (boxed_view last.now) (option_map boxed_view step.now) (boxed_stmt body.entry.now) place)) ≡ refused (first_in refusals.new) (next_check stands.entry.here.setting stands.entry.returned.now next)) }
{
    refuse_wanting(stands, Kind::Number, first, refusals)?;
    refuse_wanting(stands, Kind::Number, last, refusals)?;
    refuse_maybe(stands, Kind::Number, step, refusals)?;
    let inside = with_number(stands, name)?;
    Ok(next_in(body, inside))
}

// Where a number is bound.
fn with_number(stands: Stands<'_>, name: Name) -> Result<Standing, OutOfMemory>
    ensures { IfOk result (λ standing. standing_of stands.entry standing ≡ inside_names (stands_here stands.entry) (record { name = name; form = number } ∷ []) (name ∷ [])) }
{
    let alloc = stands.here.alloc;
    let form = Kind::Number.form(alloc)?;
    let locals = stands.here.locals.with(alloc, name, form)?;
    let declared = hidden_by(alloc, stands.declared, &[name])?;
    Ok(Standing { locals, declared })
}

/// `for all p in set S do s`
pub(crate) fn set_next<'t>(
    stands: Stands<'_>,
    pattern: &Box<Pattern>,
    set: &Box<Expr>,
    body: &'t Box<Stmt>,
    refusals: &mut Refusals,
) -> Result<Next<'t>, OutOfMemory>
    ensures { (place : PlaceOf) → IfOk result (λ next. refused (first_in refusals.old) (check_stmt (spec_here stands.entry.here) (stands_here stands.entry) (for_set (pattern_view pattern.now.value) (boxed_view set.now) (boxed_stmt body.entry.now) place)) ≡ refused (first_in refusals.new) (next_check stands.entry.here.setting stands.entry.returned.now next)) }
{
    let inside = inside_set(stands, Patterns::One(pattern), set, refusals)?;
    Ok(next_in(body, inside))
}

/// `for p in q do s`
pub(crate) fn sequence_next<'t>(
    stands: Stands<'_>,
    pattern: &Box<Pattern>,
    sequence: &Box<Expr>,
    body: &'t Box<Stmt>,
    refusals: &mut Refusals,
) -> Result<Next<'t>, OutOfMemory>
    ensures { (place : PlaceOf) → IfOk result (λ next. refused (first_in refusals.old) (check_stmt (spec_here stands.entry.here) (stands_here stands.entry) (for_sequence (pattern_view pattern.now.value) (boxed_view sequence.now) (boxed_stmt body.entry.now) place)) ≡ refused (first_in refusals.new) (next_check stands.entry.here.setting stands.entry.returned.now next)) }
{
    let setting = stands.here.setting;
    let form = form_here(stands.here, sequence, refusals)?;
    want_kind(setting, Kind::Sequence, place_of(sequence), &form, refusals);
    refuse_pattern(stands.here, pattern, refusals)?;
    let items = items_of(stands.here.alloc, setting, &form)?;
    let inside = inside_pattern(stands, items, pattern)?;
    Ok(next_in(body, inside))
}
