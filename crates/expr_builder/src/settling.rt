// Frames that end before what stands behind an expression.

ghost use Rattle.std.specs.Prelude.{◌≡◌, ◌∷◌, ◌<◌, true, false, length, IfOk, MatchOption, OnSome};
ghost use Rattle.expr_tree.specs.View.{view_of};
ghost use Rattle.expr_builder.specs.Settling.{closed, pulls_more, settled};
ghost use Rattle.tree_frames.specs.Views.{frame_view, stack_view};

use expr_tree::Expr;
use std::alloc::Global;
use tree_frames::{Frame, popped};
use tree_nodes::{completed, pull};
use vdm_kinds::OutOfMemory;

/// The expression that stands before what pulls this much: it goes into the frames that pull more, which end.
pub fn settled(
    alloc: Global,
    behind: u32,
    tree: Box<Expr>,
    frames: &mut Vec<Frame>,
) -> Result<Box<Expr>, OutOfMemory>
    ensures { IfOk result (λ whole. settled behind (view_of tree.value) (stack_view frames.old.items) ≡ closed (view_of whole.value) (stack_view frames.new.items)) }
{
    let mut tree = tree;
    while let Some(frame) = pulling(behind, frames) {
        tree = completed(alloc, frame, tree)?;
    }
    Ok(tree)
}

/// The innermost frame, where it pulls more than what stands behind; it is taken off.
fn pulling(behind: u32, frames: &mut Vec<Frame>) -> Option<Frame>
    ensures frame { MatchOption result ((pulls_more behind (stack_view frames.old.items) ≡ false) × (stack_view frames.new.items ≡ stack_view frames.old.items)) (λ frame. (pulls_more behind (stack_view frames.old.items) ≡ true) × (stack_view frames.old.items ≡ frame_view frame ∷ stack_view frames.new.items)) }
    ensures shorter { OnSome result (length frames.new.items < length frames.old.items) }
{
    if pulls_more(behind, frames) {
        popped(frames)
    } else {
        None
    }
}

/// Whether the innermost frame pulls more than what stands behind.
fn pulls_more(behind: u32, frames: &[Frame]) -> bool
    ensures { result ≡ pulls_more behind (stack_view frames.now) }
{
    match frames.last() {
        None => false,
        Some(frame) => behind < pull(frame),
    }
}
