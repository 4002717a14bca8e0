// The variables that stand with `~` in a condition.

ghost use Rattle.std.specs.Prelude.{◌≡◌, IfOk, option_map};
ghost use Rattle.stmt_meaning.specs.Olds.{olds_in, old_names};
ghost use Rattle.expr_tree.specs.View.{boxed_view};

use crate::firsts::first_names;
use crate::part::Part;
use crate::visit::finish;
use crate::walk::{Waiting, Walk};
use expr_tree::Expr;
use std::alloc::Global;
use vdm_kinds::{Name, OutOfMemory};

/// The variables that stand with `~` in a condition, each once, by first occurrence; none where there is no condition.
pub fn old_names(alloc: Global, condition: &Option<Box<Expr>>) -> Result<Vec<Name>, OutOfMemory>
    ensures { IfOk result (λ names. names.items ≡ old_names (option_map boxed_view condition.now)) }
{
    match condition {
        Some(condition) => {
            let olds = olds_in(alloc, condition)?;
            Ok(first_names(alloc, olds.as_slice())?)
        }
        None => Ok(Vec::new(alloc)),
    }
}

/// All that stand in it, in text order.
#[tactic(auto, using(crate::proofs::Joined::nothing_behind))]
fn olds_in(alloc: Global, condition: &Box<Expr>) -> Result<Vec<Name>, OutOfMemory>
    ensures { IfOk result (λ names. names.items ≡ olds_in (boxed_view condition.now)) }
{
    let mut walk = Walk::new(alloc);
    walk.push(Waiting::Within(Part::Expr(condition)))?;
    Ok(finish(walk, Vec::new(alloc))?)
}
