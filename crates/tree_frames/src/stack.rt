// The frames that are open, of which the innermost is the last.

ghost use Rattle.std.specs.Prelude.{◌≡◌, ◌<◌, [], ◌∷◌, length, MatchOption, OnOk, OnSome};
ghost use Rattle.tree_frames.specs.Views.{frame_view, stack_view};

use crate::frame::Frame;
use vdm_kinds::OutOfMemory;

/// The innermost frame, which is taken off.
pub fn popped(frames: &mut Vec<Frame>) -> Option<Frame>
    ensures frame { MatchOption result (stack_view frames.old.items ≡ []) (λ frame. stack_view frames.old.items ≡ frame_view frame ∷ stack_view frames.new.items) }
    ensures shorter { OnSome result (length frames.new.items < length frames.old.items) }
{
    frames.pop()
}

/// A frame is opened.
pub fn pushed(frames: &mut Vec<Frame>, frame: Frame) -> Result<(), OutOfMemory>
    ensures { OnOk result (stack_view frames.new.items ≡ frame_view frame ∷ stack_view frames.old.items) }
{
    frames.push(frame)?;
    Ok(())
}
