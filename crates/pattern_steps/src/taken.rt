// What frames make of a pattern that a word ends.

ghost use Rattle.std.specs.Prelude.{◌≡◌, IfOk};
ghost use Rattle.expr_tree.specs.View.{pattern_view};
ghost use Rattle.grammar_trees.specs.Machine.{taken_pattern, pattern_taken_by};
ghost use Rattle.tree_frames.specs.Views.{frame_view, stop_view, stack_view, state_view};

use crate::binds::{
    behind_bound, behind_case_pattern, behind_defined, behind_let, def_pattern, sequence_bound,
};
use crate::lists::{behind_pattern, behind_pattern_value, pattern_key, tuple_pattern_started};
use expr_tree::{MapletPattern, Pattern};
use std::alloc::Global;
use tree_frames::{Frame, Mode, Stop, popped, with_maplet_pattern, with_pattern};
use vdm_kinds::OutOfMemory;

/// What the innermost frame makes of a pattern.
pub fn pattern_taken_by(
    alloc: Global,
    pattern: Pattern,
    stop: Stop,
    frames: &mut Vec<Frame>,
) -> Result<Option<Mode>, OutOfMemory>
    ensures { IfOk result (λ next. state_view next frames.new.items ≡ pattern_taken_by (stack_view frames.old.items) (pattern_view pattern) (stop_view stop)) }
{
    match popped(frames) {
        None => Ok(None),
        Some(frame) => taken_pattern(alloc, frame, pattern, stop, frames),
    }
}

/// What a frame makes of a pattern.
pub fn taken_pattern(
    alloc: Global,
    frame: Frame,
    pattern: Pattern,
    stop: Stop,
    frames: &mut Vec<Frame>,
) -> Result<Option<Mode>, OutOfMemory>
    ensures { IfOk result (λ next. state_view next frames.new.items ≡ taken_pattern (frame_view frame) (pattern_view pattern) (stop_view stop) (stack_view frames.old.items)) }
{
    match frame {
        Frame::BindPatterns(purpose, binds, patterns, place) => {
            let patterns = with_pattern(patterns, pattern)?;
            behind_bound(purpose, binds, patterns, place, stop, frames)
        }
        Frame::SequenceBound(item, place) => {
            sequence_bound(alloc, item, pattern, place, stop, frames)
        }
        Frame::LetStart(place) => behind_let(alloc, pattern, place, stop, frames),
        Frame::LetNext(definitions, place) => {
            behind_defined(alloc, definitions, pattern, place, stop, frames)
        }
        Frame::DefPattern(place) => def_pattern(alloc, pattern, place, stop, frames),
        Frame::CasePatterns(subject, cases, patterns, place) => {
            let patterns = with_pattern(patterns, pattern)?;
            behind_case_pattern(subject, cases, patterns, place, stop, frames)
        }
        Frame::PatternItems(listed, patterns, place) => {
            behind_pattern(alloc, listed, patterns, pattern, place, stop, frames)
        }
        Frame::TuplePatternStart(place) => {
            tuple_pattern_started(alloc, pattern, place, stop, frames)
        }
        Frame::PatternKey(maplets, place) => {
            pattern_key(alloc, maplets, pattern, place, stop, frames)
        }
        Frame::PatternValue(maplets, key, place) => {
            let value = Box::new(alloc, pattern)?;
            let maplets = with_maplet_pattern(maplets, MapletPattern::new(key, value))?;
            behind_pattern_value(maplets, place, stop, frames)
        }
        frame => {
            frame.discard();
            Ok(None)
        }
    }
}
