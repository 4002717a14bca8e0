// Statements inside definitions.

ghost use Rattle.std.specs.Prelude.{◌≡◌, IfOk, map, option_map};
ghost use Rattle.vdm_kinds.specs.declared.place.Place.{Place as PlaceOf};
ghost use Rattle.abstract_syntax.specs.Statements.{def_then, let_be_then, let_then};
ghost use Rattle.expr_tree.specs.View.{bind_view, boxed_view, defined_trees, defined_view, pattern_view};
ghost use Rattle.vdm_tree.specs.StmtView.{boxed_stmt};
ghost use Rattle.spec_checks.specs.Statements.{check_stmt};
ghost use Rattle.stmt_pending.specs.Below.check_scopes.specs.Told.{first_in};
ghost use Rattle.stmt_pending.specs.Below.check_frames.specs.Meant.{spec_here};
ghost use Rattle.stmt_pending.specs.Below.stmt_scopes.specs.Standing.{stands_here};
ghost use Rattle.stmt_pending.specs.Below.stmt_scopes.specs.Refused.{refused};
ghost use Rattle.stmt_pending.specs.Meant.{next_check};

use expr_tree::{Bind, Defined, Expr, Pattern};
use stmt_exprs::handed::type_check::form_here;
use stmt_exprs::{inside_bind, inside_definitions, inside_pattern, refuse_pattern};
use stmt_pending::handed::check_scopes::Refusals;
use stmt_pending::handed::stmt_scopes::{Stands, moved, names_defined};
use stmt_pending::{Next, next_in};
use vdm_kinds::OutOfMemory;
use vdm_tree::Stmt;

/// `let p : T = a, q = b in s`
pub(crate) fn let_next<'t>(
    stands: Stands<'_>,
    definitions: &Vec<Defined>,
    body: &'t Box<Stmt>,
    refusals: &mut Refusals,
) -> Result<Next<'t>, OutOfMemory>
    ensures { (place : PlaceOf) → IfOk result (λ next. refused (first_in refusals.old) (check_stmt (spec_here stands.entry.here) (stands_here stands.entry) (let_then (defined_trees (map defined_view definitions.now.items)) (boxed_stmt body.entry.now) place)) ≡ refused (first_in refusals.new) (next_check stands.entry.here.setting stands.entry.returned.now next)) }
{
    let definitions = definitions.as_slice();
    let locals = inside_definitions(stands.here, definitions, refusals)?;
    let names = names_defined(stands.here.alloc, definitions)?;
    let inside = moved(stands, locals, names.as_slice())?;
    Ok(next_in(body, inside))
}

/// `let x in set S be st p in s`
pub(crate) fn let_be_next<'t>(
    stands: Stands<'_>,
    bind: &Box<Bind>,
    condition: &Option<Box<Expr>>,
    body: &'t Box<Stmt>,
    refusals: &mut Refusals,
) -> Result<Next<'t>, OutOfMemory>
    ensures { (place : PlaceOf) → IfOk result (λ next. refused (first_in refusals.old) (check_stmt (spec_here stands.entry.here) (stands_here stands.entry) (let_be_then (bind_view bind.now.value) (option_map boxed_view condition.now) (boxed_stmt body.entry.now) place)) ≡ refused (first_in refusals.new) (next_check stands.entry.here.setting stands.entry.returned.now next)) }
{
    let inside = inside_bind(stands, bind, condition, refusals)?;
    Ok(next_in(body, inside))
}

/// `def p = a in s`
pub(crate) fn def_next<'t>(
    stands: Stands<'_>,
    pattern: &Box<Pattern>,
    value: &Box<Expr>,
    body: &'t Box<Stmt>,
    refusals: &mut Refusals,
) -> Result<Next<'t>, OutOfMemory>
    ensures { (place : PlaceOf) → IfOk result (λ next. refused (first_in refusals.old) (check_stmt (spec_here stands.entry.here) (stands_here stands.entry) (def_then (pattern_view pattern.now.value) (boxed_view value.now) (boxed_stmt body.entry.now) place)) ≡ refused (first_in refusals.new) (next_check stands.entry.here.setting stands.entry.returned.now next)) }
{
    let form = form_here(stands.here, value, refusals)?;
    refuse_pattern(stands.here, pattern, refusals)?;
    let inside = inside_pattern(stands, form, pattern)?;
    Ok(next_in(body, inside))
}
