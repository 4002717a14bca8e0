// The expressions in brackets in the patterns of the parameters.

ghost use Rattle.std.specs.Prelude.{◌≡◌, ◌∷◌, [], drop, IfOk, MatchOption};
ghost use Rattle.std.specs.List.{flat_map};
ghost use Rattle.expr_tree.specs.View.{boxed_view, pattern_views};
ghost use Rattle.pattern_meaning.specs.Brackets.{given_in};
ghost use Rattle.eval_data.specs.Parts.{boxed_list};

use expr_tree::{Expr, Pattern};
use pattern_brackets::givens_in_each;
use std::alloc::Global;
use vdm_kinds::OutOfMemory;

/// The expressions in brackets in the patterns, in text order.
pub fn givens_of<'t>(
    alloc: Global,
    patterns: &'t [Pattern],
) -> Result<Vec<&'t Box<Expr>>, OutOfMemory>
    ensures { IfOk result (λ found. boxed_list found.items ≡ flat_map given_in (pattern_views patterns.now)) }
{
    givens_in_each(alloc, patterns)
}

/// The first of them.
pub(crate) fn first_of<'t>(found: &[&'t Box<Expr>]) -> Option<&'t Box<Expr>>
    ensures { MatchOption result (boxed_list found.now ≡ []) (λ first. boxed_list found.now ≡ boxed_view first.now ∷ drop 1 (boxed_list found.now)) }
{
    found.first().copied()
}
