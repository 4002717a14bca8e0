// What single frames make of an expression that a word ends.

ghost use Rattle.std.specs.Prelude.{◌≡◌, ◌∷◌, [], List, IfOk};
ghost use Rattle.abstract_syntax.specs.Expressions as trees;
ghost use Rattle.expr_tree.specs.View.{view_of};
ghost use Rattle.grammar_trees.specs.Frames as pure;
ghost use Rattle.grammar_trees.specs.Machine.{at_round, at_comma, in_mode, enclose, compare};
ghost use Rattle.tree_frames.specs.declared.frame.Frame.{Frame as FrameView};
ghost use Rattle.tree_frames.specs.Views.{enclosed_view, compared_view, stop_view, stack_view, state_view};

use crate::wanted::{next_at, opened_at};
use expr_tree::{Expr, Pattern};
use std::alloc::Global;
use tree_frames::{Compared, Enclosed, Frame, Header, Listed, Mode, Stop, pushed, with_expr};
use tree_nodes::{compare, enclose};
use vdm_kinds::{OutOfMemory, Place};

/// The `)` behind an expression.
pub fn enclosed(
    alloc: Global,
    purpose: Enclosed,
    tree: Box<Expr>,
    place: Place,
    stop: Stop,
) -> Result<Option<Mode>, OutOfMemory>
    ensures { IfOk result (λ next. (frames : List FrameView) → state_view next frames ≡ at_round (stop_view stop) (in_mode (pure.has (enclose (enclosed_view purpose) (view_of tree.value) place)) (stack_view frames))) }
{
    let tree = enclose(alloc, purpose, tree, place)?;
    Ok(next_at(Stop::CloseRound, Mode::Has(tree), stop))
}

/// The `)` behind an expression that is a pattern.
pub fn matched(tree: Box<Expr>, place: Place, stop: Stop) -> Option<Mode>
    ensures { (frames : List FrameView) → state_view result frames ≡ at_round (stop_view stop) (in_mode (pure.has_pattern (trees.equal_to (view_of tree.value) place)) (stack_view frames)) }
{
    let pattern = Pattern::equal_to(tree, place);
    next_at(Stop::CloseRound, Mode::HasPattern(pattern), stop)
}

/// The `,` behind the first part of a tuple.
pub fn tuple_started(
    alloc: Global,
    tree: Box<Expr>,
    place: Place,
    stop: Stop,
    frames: &mut Vec<Frame>,
) -> Result<Option<Mode>, OutOfMemory>
    ensures { IfOk result (λ next. state_view next frames.new.items ≡ at_comma (stop_view stop) (in_mode pure.wants (pure.items pure.tuple_of (trees.one_expr (view_of tree.value) trees.no_exprs) place ∷ (stack_view frames.old.items)))) }
{
    let items = with_expr(Vec::new(alloc), tree)?;
    let frame = Frame::Items(Listed::TupleOf, items, place);
    opened_at(Stop::Comma, frame, stop, frames)
}

/// The `)` behind the second of two objects.
pub fn right_class(
    alloc: Global,
    compared: Compared,
    left: Box<Expr>,
    tree: Box<Expr>,
    place: Place,
    stop: Stop,
) -> Result<Option<Mode>, OutOfMemory>
    ensures { IfOk result (λ next. (frames : List FrameView) → state_view next frames ≡ at_round (stop_view stop) (in_mode (pure.has (compare (compared_view compared) (view_of left.value) (view_of tree.value) place)) (stack_view frames))) }
{
    let tree = compare(alloc, compared, left, tree, place)?;
    Ok(next_at(Stop::CloseRound, Mode::Has(tree), stop))
}

/// The `,` behind what `is_` tests.
pub fn tested(
    alloc: Global,
    tree: Box<Expr>,
    place: Place,
    stop: Stop,
    frames: &mut Vec<Frame>,
) -> Result<Option<Mode>, OutOfMemory>
    ensures { IfOk result (λ next. state_view next frames.new.items ≡ at_comma (stop_view stop) (in_mode (pure.typing []) (pure.test_type (view_of tree.value) place ∷ (stack_view frames.old.items)))) }
{
    match stop {
        Stop::Comma => {
            pushed(frames, Frame::TestType(tree, place))?;
            Ok(Some(Mode::Typing(Vec::new(alloc))))
        }
        _ => {
            Mode::Has(tree).discard();
            Ok(None)
        }
    }
}

/// The `,` behind what `mu` modifies.
pub fn modified(alloc: Global, tree: Box<Expr>, place: Place, stop: Stop) -> Option<Mode>
    ensures { (frames : List FrameView) → state_view result frames ≡ at_comma (stop_view stop) (in_mode (pure.awaits (pure.field_name (view_of tree.value) trees.no_field_values place)) (stack_view frames)) }
{
    let header = Header::FieldName(tree, Vec::new(alloc), place);
    next_at(Stop::Comma, Mode::Awaits(header), stop)
}
