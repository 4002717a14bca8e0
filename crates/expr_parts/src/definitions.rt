// Fields and definitions, behind an expression.

ghost use Rattle.std.specs.Prelude.{◌≡◌, List, IfOk, map};
ghost use Rattle.expr_tree.specs.View.{view_of, field_value_trees, field_value_view, defined_trees, defined_view};
ghost use Rattle.grammar_trees.specs.Machine.{behind_field, behind_definition};
ghost use Rattle.tree_frames.specs.declared.frame.Frame.{Frame as FrameView};
ghost use Rattle.tree_frames.specs.Views.{stop_view, stack_view, state_view};

use crate::wanted::{next_at, opened_at};
use expr_tree::{Defined, Expr, FieldValue};
use std::alloc::Global;
use tree_frames::{Body, Frame, Header, Mode, Stop, boxed};
use tree_nodes::{awaiting, opened_pattern};
use vdm_kinds::{OutOfMemory, Place};

/// Behind the value of a field.
pub fn behind_field(
    alloc: Global,
    target: Box<Expr>,
    fields: Vec<FieldValue>,
    place: Place,
    stop: Stop,
) -> Result<Option<Mode>, OutOfMemory>
    ensures { IfOk result (λ next. (frames : List FrameView) → state_view next frames ≡ behind_field (view_of target.value) (field_value_trees (map field_value_view fields.items)) place (stop_view stop) (stack_view frames)) }
{
    match stop {
        Stop::Comma => Ok(awaiting(Header::FieldName(target, fields, place))),
        stop => {
            let tree = boxed(alloc, Expr::modify_record(target, fields, place))?;
            Ok(next_at(Stop::CloseRound, Mode::Has(tree), stop))
        }
    }
}

/// Behind the value of a definition.
pub fn behind_definition(
    definitions: Vec<Defined>,
    place: Place,
    stop: Stop,
    frames: &mut Vec<Frame>,
) -> Result<Option<Mode>, OutOfMemory>
    ensures { IfOk result (λ next. state_view next frames.new.items ≡ behind_definition (defined_trees (map defined_view definitions.items)) place (stop_view stop) (stack_view frames.old.items)) }
{
    match stop {
        Stop::Comma => opened_pattern(Frame::LetNext(definitions, place), frames),
        stop => opened_at(
            Stop::In,
            Frame::Body(Body::Let(definitions), place),
            stop,
            frames,
        ),
    }
}
