// Statements in boxes.

ghost use Rattle.std.specs.Prelude.{◌≡◌, IfOk};
ghost use Rattle.vdm_tree.specs.StmtView.{boxed_stmt, stmt_view};

use std::alloc::Global;
use vdm_kinds::OutOfMemory;
use vdm_tree::Stmt;

/// The statement, in a box.
pub fn boxed(alloc: Global, statement: Stmt) -> Result<Box<Stmt>, OutOfMemory>
    ensures { IfOk result (λ s. boxed_stmt s ≡ stmt_view statement) }
{
    Ok(Box::new(alloc, statement)?)
}
