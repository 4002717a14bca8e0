// Expressions behind a box.

ghost use Rattle.std.specs.Prelude.{◌≡◌, IfOk};

use expr_tree::Expr;
use std::alloc::Global;
use vdm_kinds::OutOfMemory;

/// The expression behind a box.
pub fn boxed(alloc: Global, tree: Expr) -> Result<Box<Expr>, OutOfMemory>
    ensures { IfOk result (λ boxed. boxed.value ≡ tree) }
{
    Ok(Box::new(alloc, tree)?)
}
