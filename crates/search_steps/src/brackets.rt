// The expressions in brackets in patterns, which are evaluated before a search.

ghost use Rattle.std.specs.Prelude.{◌≡◌, ◌++◌, IfOk};
ghost use Rattle.std.specs.List.{flat_map};
ghost use Rattle.pattern_meaning.specs.Brackets.{given_in};
ghost use Rattle.eval_data.specs.Parts.{boxed_list, patterns_at};

use expr_tree::{Expr, Pattern};
use pattern_brackets::givens_in;
use std::alloc::Global;
use vdm_kinds::OutOfMemory;

/// The expressions in brackets in all patterns, in text order.
pub(crate) fn givens_of<'t>(
    alloc: Global,
    patterns: &[&'t Pattern],
) -> Result<Vec<&'t Box<Expr>>, OutOfMemory>
    ensures { IfOk result (λ found. boxed_list found.items ≡ flat_map given_in (patterns_at patterns.now)) }
{
    let mut found = Vec::new(alloc);
    for pattern in patterns {
        let more = givens_in(alloc, *pattern)?;
        found = joined(found, more)?;
    }
    Ok(found)
}

// The expressions of both lists.
fn joined<'t>(
    found: Vec<&'t Box<Expr>>,
    more: Vec<&'t Box<Expr>>,
) -> Result<Vec<&'t Box<Expr>>, OutOfMemory>
    ensures { IfOk result (λ all. boxed_list all.items ≡ boxed_list found.entry.items ++ boxed_list more.entry.items) }
{
    let mut all = found;
    for expr in more.as_slice() {
        all.push(*expr)?;
    }
    Ok(all)
}
