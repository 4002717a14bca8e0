// What frames make of an expression that a word ends.

ghost use Rattle.std.specs.Prelude.{◌≡◌, List, IfOk};
ghost use Rattle.expr_tree.specs.View.{view_of};
ghost use Rattle.grammar_trees.specs.Machine.{no_tree, taken, taken_by};
ghost use Rattle.tree_frames.specs.declared.frame.Frame.{Frame as FrameView};
ghost use Rattle.tree_frames.specs.Views.{frame_view, stop_view, stack_view, state_view};

use expr_parts::{
    behind_branch, behind_case, behind_definition, behind_field, behind_item, behind_maplet,
    behind_sequence_set, behind_set, enclosed, end_condition, end_range, matched, modified,
    next_at, opened_at, right_class, subject, tested, tuple_started,
};
use expr_tree::{Bind, Branch, Case, Defined, Expr, FieldValue};
use std::alloc::Global;
use tree_frames::{
    Body, Frame, Mode, Stop, boxed, popped, with_branch, with_case, with_defined, with_field_value,
};
use vdm_kinds::OutOfMemory;

/// What the innermost frame makes of an expression.
pub fn taken_by(
    alloc: Global,
    tree: Box<Expr>,
    stop: Stop,
    frames: &mut Vec<Frame>,
) -> Result<Option<Mode>, OutOfMemory>
    ensures { IfOk result (λ next. state_view next frames.new.items ≡ taken_by (stack_view frames.old.items) (view_of tree.value) (stop_view stop)) }
{
    match popped(frames) {
        None => {
            Mode::Has(tree).discard();
            Ok(None)
        }
        Some(frame) => taken(alloc, frame, tree, stop, frames),
    }
}

/// What a frame makes of an expression.
fn taken(
    alloc: Global,
    frame: Frame,
    tree: Box<Expr>,
    stop: Stop,
    frames: &mut Vec<Frame>,
) -> Result<Option<Mode>, OutOfMemory>
    ensures { IfOk result (λ next. state_view next frames.new.items ≡ taken (frame_view frame) (view_of tree.value) (stop_view stop) (stack_view frames.old.items)) }
{
    match frame {
        Frame::Enclosed(purpose, place) => enclosed(alloc, purpose, tree, place, stop),
        Frame::Matched(place) => Ok(matched(tree, place, stop)),
        Frame::Items(listed, items, place) => {
            behind_item(alloc, listed, items, tree, place, stop, frames)
        }
        Frame::TupleStart(place) => tuple_started(alloc, tree, place, stop, frames),
        Frame::RangeEnd(ranged, first, place) => end_range(alloc, ranged, first, tree, place, stop),
        Frame::MapKey(maplets, place) => {
            opened_at(
                Stop::MapsTo,
                Frame::MapValue(maplets, tree, place),
                stop,
                frames,
            )
        }
        Frame::MapValue(maplets, key, place) => {
            behind_maplet(alloc, maplets, key, tree, place, stop, frames)
        }
        Frame::Condition(such, place) => end_condition(alloc, such, Some(tree), place, stop),
        Frame::BindSet(purpose, binds, patterns, place) => {
            behind_set(
                alloc,
                purpose,
                binds,
                Bind::new(patterns, tree),
                place,
                stop,
                frames,
            )
        }
        Frame::SequenceSet(item, pattern, place) => {
            behind_sequence_set(alloc, item, pattern, tree, place, stop, frames)
        }
        Frame::LeftClass(compared, place) => {
            opened_at(
                Stop::Comma,
                Frame::RightClass(compared, tree, place),
                stop,
                frames,
            )
        }
        Frame::RightClass(compared, left, place) => {
            right_class(alloc, compared, left, tree, place, stop)
        }
        Frame::Tested(place) => tested(alloc, tree, place, stop, frames),
        Frame::Modified(place) => Ok(modified(alloc, tree, place, stop)),
        Frame::FieldValue(target, fields, name, name_place, place) => {
            let fields = with_field_value(fields, FieldValue::new(name, name_place, tree))?;
            behind_field(alloc, target, fields, place, stop)
        }
        Frame::LetValue(definitions, pattern, declared, place) => {
            let definitions = with_defined(definitions, Defined::new(pattern, declared, tree))?;
            behind_definition(definitions, place, stop, frames)
        }
        Frame::LetSuch(bind, place) => {
            let frame = Frame::Body(Body::Such(bind, Some(tree)), place);
            opened_at(Stop::In, frame, stop, frames)
        }
        Frame::DefValue(pattern, place) => {
            opened_at(
                Stop::In,
                Frame::Body(Body::Def(pattern, tree), place),
                stop,
                frames,
            )
        }
        Frame::IfTest(place) => opened_at(Stop::Then, Frame::IfThen(tree, place), stop, frames),
        Frame::IfThen(test, place) => {
            behind_branch(test, tree, Vec::new(alloc), place, stop, frames)
        }
        Frame::ElseifTest(test, value, elseifs, place) => {
            let frame = Frame::ElseifThen(test, value, elseifs, tree, place);
            opened_at(Stop::Then, frame, stop, frames)
        }
        Frame::ElseifThen(test, value, elseifs, next, place) => {
            let elseifs = with_branch(elseifs, Branch::new(next, tree))?;
            behind_branch(test, value, elseifs, place, stop, frames)
        }
        Frame::Subject(place) => subject(alloc, tree, place, stop, frames),
        Frame::CaseValue(subject, cases, patterns, place) => {
            let cases = with_case(cases, Case::new(patterns, tree))?;
            behind_case(alloc, subject, cases, place, stop, frames)
        }
        Frame::OthersValue(subject, cases, place) => {
            let tree = boxed(alloc, Expr::cases(subject, cases, Some(tree), place))?;
            Ok(next_at(Stop::End, Mode::Has(tree), stop))
        }
        Frame::OperandOf(sign, place) => Ok(refused(Frame::OperandOf(sign, place), tree)),
        Frame::RightOf(left, sign, place) => Ok(refused(Frame::RightOf(left, sign, place), tree)),
        Frame::Body(body, place) => Ok(refused(Frame::Body(body, place), tree)),
        Frame::BindPatterns(purpose, binds, patterns, place) => {
            Ok(refused(Frame::BindPatterns(purpose, binds, patterns, place), tree))
        }
        Frame::SequenceBound(item, place) => Ok(refused(Frame::SequenceBound(item, place), tree)),
        Frame::LetStart(place) => Ok(refused(Frame::LetStart(place), tree)),
        Frame::LetNext(definitions, place) => {
            Ok(refused(Frame::LetNext(definitions, place), tree))
        }
        Frame::DefPattern(place) => Ok(refused(Frame::DefPattern(place), tree)),
        Frame::CasePatterns(subject, cases, patterns, place) => {
            Ok(refused(Frame::CasePatterns(subject, cases, patterns, place), tree))
        }
        Frame::PatternItems(purpose, patterns, place) => {
            Ok(refused(Frame::PatternItems(purpose, patterns, place), tree))
        }
        Frame::TuplePatternStart(place) => Ok(refused(Frame::TuplePatternStart(place), tree)),
        Frame::PatternKey(maplets, place) => Ok(refused(Frame::PatternKey(maplets, place), tree)),
        Frame::PatternValue(maplets, key, place) => {
            Ok(refused(Frame::PatternValue(maplets, key, place), tree))
        }
        Frame::Concatenated(patterns, place) => {
            Ok(refused(Frame::Concatenated(patterns, place), tree))
        }
        Frame::TestType(tested, place) => Ok(refused(Frame::TestType(tested, place), tree)),
        Frame::LetType(definitions, pattern, place) => {
            Ok(refused(Frame::LetType(definitions, pattern, place), tree))
        }
        Frame::TypeBracket => Ok(refused(Frame::TypeBracket, tree)),
    }
}

/// No tree goes on where the frame takes no expression that a word ends; both go.
fn refused(frame: Frame, tree: Box<Expr>) -> Option<Mode>
    ensures { (frames : List FrameView) → state_view result frames ≡ no_tree }
{
    frame.discard();
    Mode::Has(tree).discard();
    None
}
