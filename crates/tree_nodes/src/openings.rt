// Frames that are opened.

ghost use Rattle.std.specs.Prelude.{◌≡◌, ◌∷◌, List, IfOk};
ghost use Rattle.abstract_syntax.specs.Expressions.{no_binds, no_patterns};
ghost use Rattle.expr_tree.specs.View.{expr_trees, views_of};
ghost use Rattle.grammar_trees.specs.Frames.{wants, wants_pattern, awaits, bind_patterns};
ghost use Rattle.grammar_trees.specs.Machine.{in_mode};
ghost use Rattle.tree_nodes.specs.Emptiness.{is_empty_exprs};
ghost use Rattle.tree_frames.specs.declared.frame.Frame.{Frame as FrameView};
ghost use Rattle.tree_frames.specs.Views.{binds_for_view, frame_view, header_view, stack_view, state_view};

use expr_tree::Expr;
use std::alloc::Global;
use tree_frames::{BindsFor, Frame, Header, Mode, pushed};
use vdm_kinds::{OutOfMemory, Place};

/// A frame is opened, and an expression is wanted.
pub fn opened(frame: Frame, frames: &mut Vec<Frame>) -> Result<Option<Mode>, OutOfMemory>
    ensures { IfOk result (λ next. state_view next frames.new.items ≡ in_mode wants (frame_view frame ∷ stack_view frames.old.items)) }
{
    pushed(frames, frame)?;
    Ok(Some(Mode::Wants))
}

/// A frame is opened, and a pattern is wanted.
pub fn opened_pattern(frame: Frame, frames: &mut Vec<Frame>) -> Result<Option<Mode>, OutOfMemory>
    ensures { IfOk result (λ next. state_view next frames.new.items ≡ in_mode wants_pattern (frame_view frame ∷ stack_view frames.old.items)) }
{
    pushed(frames, frame)?;
    Ok(Some(Mode::WantsPattern))
}

/// Single tokens are wanted.
pub fn awaiting(header: Header) -> Option<Mode>
    ensures { (frames : List FrameView) → state_view result frames ≡ in_mode (awaits (header_view header)) (stack_view frames) }
{
    Some(Mode::Awaits(header))
}

/// Binds are wanted.
pub fn binding(
    alloc: Global,
    purpose: BindsFor,
    place: Place,
    frames: &mut Vec<Frame>,
) -> Result<Option<Mode>, OutOfMemory>
    ensures { IfOk result (λ next. state_view next frames.new.items ≡ in_mode wants_pattern (bind_patterns (binds_for_view purpose) no_binds no_patterns place ∷ stack_view frames.old.items)) }
{
    opened_pattern(
        Frame::BindPatterns(purpose, Vec::new(alloc), Vec::new(alloc), place),
        frames,
    )
}

/// Whether there is no expression.
pub fn is_empty(items: &[Expr]) -> bool
    ensures { result ≡ is_empty_exprs (expr_trees (views_of items.now)) }
{
    match items {
        [] => true,
        _ => false,
    }
}
