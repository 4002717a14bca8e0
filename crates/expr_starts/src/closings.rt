// What closes or ends where an item of a list is wanted.

ghost use Rattle.std.specs.Prelude.{◌≡◌, List, IfOk};
ghost use Rattle.expr_tree.specs.View.{view_of};
ghost use Rattle.grammar_trees.specs.Frames.{awaits, comma_then, range_end};
ghost use Rattle.grammar_trees.specs.Machine.{in_mode, in_items, empty_curly, empty_square, empty_round, empty_maps_to, dots_behind};
ghost use Rattle.tree_frames.specs.declared.frame.Frame.{Frame as FrameView};
ghost use Rattle.tree_frames.specs.Views.{ranged_view, stack_view, state_view};

use crate::lists::{EmptyList, ListOfOne, empty_list, list_of_one};
use crate::nodes::read;
use expr_tree::Expr;
use std::alloc::Global;
use tree_frames::{Frame, Header, Listed, Mode, Ranged};
use tree_nodes::awaiting;
use vdm_kinds::{OutOfMemory, Place};

/// `}` where an expression is wanted: of the set without an element.
pub fn close_curly(alloc: Global, frames: &mut Vec<Frame>) -> Result<Option<Mode>, OutOfMemory>
    ensures { IfOk result (λ next. state_view next frames.new.items ≡ in_items empty_curly (stack_view frames.old.items)) }
{
    let Some(EmptyList { listed, place }) = empty_list(frames) else {
        return Ok(None);
    };
    match listed {
        Listed::SetOf => read(alloc, Expr::set_enumeration(Vec::new(alloc), place)),
        _ => Ok(None),
    }
}

/// `]` where an expression is wanted: of the sequence without an item.
pub fn close_square(alloc: Global, frames: &mut Vec<Frame>) -> Result<Option<Mode>, OutOfMemory>
    ensures { IfOk result (λ next. state_view next frames.new.items ≡ in_items empty_square (stack_view frames.old.items)) }
{
    let Some(EmptyList { listed, place }) = empty_list(frames) else {
        return Ok(None);
    };
    match listed {
        Listed::SequenceOf => read(alloc, Expr::sequence_enumeration(Vec::new(alloc), place)),
        _ => Ok(None),
    }
}

/// `)` where an expression is wanted: of the record without a field, and the call without an argument.
pub fn close_round(alloc: Global, frames: &mut Vec<Frame>) -> Result<Option<Mode>, OutOfMemory>
    ensures { IfOk result (λ next. state_view next frames.new.items ≡ in_items empty_round (stack_view frames.old.items)) }
{
    let Some(EmptyList { listed, place }) = empty_list(frames) else {
        return Ok(None);
    };
    match listed {
        Listed::RecordOf(name) => read(alloc, Expr::make_record(name, Vec::new(alloc), place)),
        Listed::NewOf(class, at) => read(alloc, Expr::create(class, at, Vec::new(alloc), place)),
        Listed::AppliedTo(head) => read(alloc, Expr::apply(head, Vec::new(alloc), place)),
        _ => Ok(None),
    }
}

/// `|->` where an expression is wanted: of the map without a pair, whose `}` is still to come.
pub fn maps_to(frames: &mut Vec<Frame>) -> Option<Mode>
    ensures { state_view result frames.new.items ≡ in_items empty_maps_to (stack_view frames.old.items) }
{
    let EmptyList { listed, place } = empty_list(frames)?;
    match listed {
        Listed::SetOf => awaiting(Header::EmptyMapEnd(place)),
        _ => None,
    }
}

/// `...` where an expression is wanted: of a range, whose first number was read.
pub fn dots(alloc: Global, frames: &mut Vec<Frame>) -> Result<Option<Mode>, OutOfMemory>
    ensures { IfOk result (λ next. state_view next frames.new.items ≡ in_items dots_behind (stack_view frames.old.items)) }
{
    let Some(
        ListOfOne {
            listed,
            first,
            place,
        },
    ) = list_of_one(alloc, frames)?
    else {
        return Ok(None);
    };
    match listed {
        Listed::SetOf => Ok(ranging(Ranged::InSet, first, place)),
        Listed::AppliedTo(head) => Ok(ranging(Ranged::PartOfSequence(head), first, place)),
        _ => Ok(None),
    }
}

/// The last of a range is wanted, behind a `,`.
fn ranging(ranged: Ranged, first: Box<Expr>, place: Place) -> Option<Mode>
    ensures { (frames : List FrameView) → state_view result frames ≡ in_mode (awaits (comma_then (range_end (ranged_view ranged) (view_of first.value) place))) (stack_view frames) }
{
    awaiting(Header::CommaThen(Frame::RangeEnd(ranged, first, place)))
}
