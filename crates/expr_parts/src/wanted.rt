// What goes on at one word alone.

ghost use Rattle.std.specs.Prelude.{◌≡◌, ◌∷◌, if◌then◌else◌, List, IfOk};
ghost use Rattle.expr_parts.specs.At.{at};
ghost use Rattle.grammar_trees.specs.Frames.{State, wants};
ghost use Rattle.grammar_trees.specs.Machine.{in_mode, no_tree};
ghost use Rattle.tree_frames.specs.declared.frame.Frame.{Frame as FrameView};
ghost use Rattle.tree_frames.specs.Views.{frame_view, mode_view, stop_view, stack_view, state_view};

use tree_frames::{Frame, Mode, Stop};
use tree_nodes::opened;
use vdm_kinds::OutOfMemory;

/// At this word alone a frame is opened, and an expression is wanted.
pub fn opened_at(
    wanted: Stop,
    frame: Frame,
    stop: Stop,
    frames: &mut Vec<Frame>,
) -> Result<Option<Mode>, OutOfMemory>
    ensures { IfOk result (λ next. state_view next frames.new.items ≡ at (stop_view wanted) (stop_view stop) (in_mode wants (frame_view frame ∷ stack_view frames.old.items))) }
{
    if is_wanted(wanted, stop) {
        opened(frame, frames)
    } else {
        frame.discard();
        Ok(None)
    }
}

/// At this word alone this comes next.
pub fn next_at(wanted: Stop, next: Mode, stop: Stop) -> Option<Mode>
    ensures { (frames : List FrameView) → state_view result frames ≡ at (stop_view wanted) (stop_view stop) (in_mode (mode_view next) (stack_view frames)) }
{
    if is_wanted(wanted, stop) {
        Some(next)
    } else {
        next.discard();
        None
    }
}

/// Whether the word is the one that is wanted.
fn is_wanted(wanted: Stop, stop: Stop) -> bool
    ensures { (s : State) → at (stop_view wanted) (stop_view stop) s ≡ (if result then s else no_tree) }
{
    match wanted {
        Stop::Comma => matches!(stop, Stop::Comma),
        Stop::CloseRound => matches!(stop, Stop::CloseRound),
        Stop::CloseSquare => matches!(stop, Stop::CloseSquare),
        Stop::CloseCurly => matches!(stop, Stop::CloseCurly),
        Stop::MapsTo => matches!(stop, Stop::MapsTo),
        Stop::Ampersand => matches!(stop, Stop::Ampersand),
        Stop::Then => matches!(stop, Stop::Then),
        Stop::In => matches!(stop, Stop::In),
        Stop::Else => matches!(stop, Stop::Else),
        Stop::End => matches!(stop, Stop::End),
        _ => false,
    }
}
