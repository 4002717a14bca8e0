// A node that is whole.

ghost use Rattle.std.specs.Prelude.{◌≡◌, List, IfOk};
ghost use Rattle.expr_tree.specs.View.{view_of};
ghost use Rattle.grammar_trees.specs.Frames.{has};
ghost use Rattle.grammar_trees.specs.Machine.{in_mode};
ghost use Rattle.tree_frames.specs.declared.frame.Frame.{Frame as FrameView};
ghost use Rattle.tree_frames.specs.Views.{stack_view, state_view};

use expr_tree::Expr;
use std::alloc::Global;
use tree_frames::{Mode, boxed};
use vdm_kinds::OutOfMemory;

/// An expression was read.
pub fn read(alloc: Global, tree: Expr) -> Result<Option<Mode>, OutOfMemory>
    ensures { IfOk result (λ next. (frames : List FrameView) → state_view next frames ≡ in_mode (has (view_of tree)) (stack_view frames)) }
{
    Ok(Some(Mode::Has(boxed(alloc, tree)?)))
}
