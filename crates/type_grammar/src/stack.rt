// The frames that are open, of which the innermost is the last.

ghost use Rattle.std.specs.Prelude.{◌≡◌, ◌<◌, [], ◌∷◌, length, IfOk, IfNone, MatchOption, OnOk, OnSome};
ghost use Rattle.type_tree.specs.TypeView.{type_view};
ghost use Rattle.type_reading.specs.Reading.{settled};
ghost use Rattle.type_grammar.specs.Views.{frame_view, frame_top, stack_view, stack_top, trees_view, with_factors, with_alternatives};
ghost use Rattle.type_grammar.specs.declared.frame.Top.TheVariants as top_is;

use crate::frame::{Frame, Top};
use crate::nodes::{collection_type, mapping_type};
use std::alloc::Global;
use type_tree::TypeExpr;
use vdm_kinds::OutOfMemory;

/// What the innermost frame is.
pub fn stack_top(frames: &[Frame]) -> Top
    ensures { result ≡ stack_top (stack_view frames.now) }
{
    match frames.last() {
        None => Top::Other,
        Some(frame) => frame_top(frame),
    }
}

/// What a frame is.
fn frame_top(frame: &Frame) -> Top
    ensures { result ≡ frame_top (frame_view frame.now) }
{
    match frame {
        Frame::Element(_, _) | Frame::ValueOf(_, _, _) => Top::Part,
        Frame::KeyOf(_, _) | Frame::Enclosed(_, _) => Top::Other,
        Frame::Factors(_) => Top::Factors,
        Frame::Alternatives(_) => Top::Alternatives,
    }
}

/// The type that ends with a single type in the innermost frame, which is taken off.
pub fn with_part(
    alloc: Global,
    tree: TypeExpr,
    frames: &mut Vec<Frame>,
) -> Result<TypeExpr, OutOfMemory>
    requires { stack_top (stack_view frames.old.items) ≡ top_is.Part }
    ensures part { IfOk result (λ whole. settled (type_view whole) (stack_view frames.new.items) ≡ settled (type_view tree) (stack_view frames.old.items)) }
    ensures shorter { OnOk result (length frames.new.items < length frames.old.items) }
{
    match popped(frames) {
        Some(Frame::Element(collection, place)) => collection_type(alloc, collection, tree, place),
        Some(Frame::ValueOf(mapping, key, place)) => mapping_type(alloc, mapping, key, tree, place),
        _ => unreachable!(),
    }
}

/// The factors before a `*`, which are taken off where they are innermost.
pub fn factors(frames: &mut Vec<Frame>) -> Option<Vec<TypeExpr>>
    ensures taken { stack_view frames.old.items ≡ with_factors (trees_view result) (stack_view frames.new.items) }
    ensures none { IfNone result (stack_top (stack_view frames.new.items) ≡ top_is.Factors → ⊥) }
{
    let Top::Factors = stack_top(frames) else {
        return None;
    };
    match popped(frames) {
        Some(Frame::Factors(trees)) => Some(trees),
        _ => unreachable!(),
    }
}

/// The alternatives before a `|`, which are taken off where they are innermost.
pub fn alternatives(frames: &mut Vec<Frame>) -> Option<Vec<TypeExpr>>
    ensures taken { stack_view frames.old.items ≡ with_alternatives (trees_view result) (stack_view frames.new.items) }
    ensures none { IfNone result (stack_top (stack_view frames.new.items) ≡ top_is.Alternatives → ⊥) }
{
    let Top::Alternatives = stack_top(frames) else {
        return None;
    };
    match popped(frames) {
        Some(Frame::Alternatives(trees)) => Some(trees),
        _ => unreachable!(),
    }
}

/// The innermost frame, which is taken off.
pub fn popped(frames: &mut Vec<Frame>) -> Option<Frame>
    ensures frame { MatchOption result (stack_view frames.old.items ≡ []) (λ frame. stack_view frames.old.items ≡ frame_view frame ∷ stack_view frames.new.items) }
    ensures shorter { OnSome result (length frames.new.items < length frames.old.items) }
{
    frames.pop()
}

/// A frame is opened.
pub fn pushed(frames: &mut Vec<Frame>, frame: Frame) -> Result<(), OutOfMemory>
    ensures { OnOk result (stack_view frames.new.items ≡ frame_view frame ∷ stack_view frames.old.items) }
{
    frames.push(frame)?;
    Ok(())
}
