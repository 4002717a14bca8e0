// The expressions in brackets in patterns.

ghost use Rattle.std.specs.Prelude.{◌≡◌, OnOk};
ghost use Rattle.expr_tree.specs.View.{pattern_view};
ghost use Rattle.class_checks.specs.Expressions.{givens as givens_of, givens_each};
ghost use Rattle.class_checks.specs.Results.{first_among};
ghost use Rattle.spec_checks.specs.Statements.{done};
ghost use Rattle.stmt_scopes.specs.Below.check_scopes.specs.Told.{first_in};
ghost use Rattle.stmt_scopes.specs.Below.check_patterns.specs.Givens.{expr_trees, givens_list};
ghost use Rattle.stmt_scopes.specs.Below.check_patterns.specs.Shown.{patterns_of};
ghost use Rattle.stmt_scopes.specs.Below.check_frames.specs.Meant.{scope_here, spec_here};

use crate::wanting::refuse_expr;
use expr_tree::{Expr, Pattern};
use stmt_scopes::handed::check_frames::Here;
use stmt_scopes::handed::check_patterns::{Patterns, givens, givens_in};
use stmt_scopes::handed::check_scopes::Refusals;
use vdm_kinds::OutOfMemory;

/// Notes what is refused in the expressions in brackets in patterns, which stand where the patterns do.
pub fn refuse_givens(
    here: Here<'_>,
    patterns: Patterns<'_>,
    refusals: &mut Refusals,
) -> Result<(), OutOfMemory>
    ensures { OnOk result (first_in refusals.new ≡ first_among (first_in refusals.old) (givens_each (spec_here here.entry) (scope_here here.entry) (patterns_of patterns.entry) done).refusals) }
{
    let exprs = givens(here.alloc, patterns)?;
    refuse_each(here, exprs.as_slice(), refusals)
}

/// The same of one pattern.
pub(crate) fn refuse_given(
    here: Here<'_>,
    pattern: &Box<Pattern>,
    refusals: &mut Refusals,
) -> Result<(), OutOfMemory>
    ensures { OnOk result (first_in refusals.new ≡ first_among (first_in refusals.old) (givens_of (spec_here here.entry) (scope_here here.entry) (pattern_view pattern.now.value) done).refusals) }
{
    let exprs = givens_in(here.alloc, pattern)?;
    refuse_each(here, exprs.as_slice(), refusals)
}

fn refuse_each(
    here: Here<'_>,
    exprs: &[&Box<Expr>],
    refusals: &mut Refusals,
) -> Result<(), OutOfMemory>
    ensures { OnOk result (first_in refusals.new ≡ first_among (first_in refusals.old) (givens_list (spec_here here.entry) (scope_here here.entry) (expr_trees exprs.now) done).refusals) }
{
    for expr in exprs {
        refuse_expr(here, *expr, refusals)?;
    }
    Ok(())
}
