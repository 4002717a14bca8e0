// Lists and maps of patterns.

ghost use Rattle.std.specs.Prelude.{◌≡◌, ◌∷◌, List, IfOk, map};
ghost use Rattle.abstract_syntax.specs.Expressions.{no_patterns, one_pattern};
ghost use Rattle.expr_tree.specs.View.{pattern_view, pattern_views, pattern_trees, maplet_pattern_trees, maplet_pattern_view};
ghost use Rattle.grammar_trees.specs.Frames as pure;
ghost use Rattle.grammar_trees.specs.Machine.{in_mode, at_curly, at_square, at_round, at_comma, at_maps_to, closes_patterns, whole_patterns, behind_first_pattern, behind_pattern, behind_pattern_value};
ghost use Rattle.tree_frames.specs.declared.frame.Frame.{Frame as FrameView};
ghost use Rattle.tree_frames.specs.Views.{patterns_for_view, stop_view, stack_view, state_view};
ghost use Rattle.tree_nodes.specs.Emptiness.{is_empty_patterns};

use expr_tree::{MapletPattern, Pattern};
use std::alloc::Global;
use tree_frames::{Frame, Mode, PatternsFor, Stop, with_pattern};
use tree_nodes::{opened_pattern, whole_patterns};
use vdm_kinds::{OutOfMemory, Place};

/// Behind a pattern of a list.
pub fn behind_pattern(
    alloc: Global,
    listed: PatternsFor,
    patterns: Vec<Pattern>,
    pattern: Pattern,
    place: Place,
    stop: Stop,
    frames: &mut Vec<Frame>,
) -> Result<Option<Mode>, OutOfMemory>
    ensures { IfOk result (λ next. state_view next frames.new.items ≡ behind_pattern (patterns_for_view listed) (pattern_trees (pattern_views patterns.items)) (pattern_view pattern) place (stop_view stop) (stack_view frames.old.items)) }
{
    match stop {
        Stop::Comma => {
            let patterns = with_pattern(patterns, pattern)?;
            opened_pattern(Frame::PatternItems(listed, patterns, place), frames)
        }
        _ => behind_first_pattern(alloc, listed, patterns, pattern, place, stop, frames),
    }
}

/// Behind a pattern of a list, which may be the first key of a map.
fn behind_first_pattern(
    alloc: Global,
    listed: PatternsFor,
    patterns: Vec<Pattern>,
    pattern: Pattern,
    place: Place,
    stop: Stop,
    frames: &mut Vec<Frame>,
) -> Result<Option<Mode>, OutOfMemory>
    ensures { IfOk result (λ next. state_view next frames.new.items ≡ behind_first_pattern (patterns_for_view listed) (pattern_trees (pattern_views patterns.items)) (pattern_view pattern) place (stop_view stop) (stack_view frames.old.items)) }
{
    match listed {
        PatternsFor::SetLike => in_curly(alloc, patterns, pattern, place, stop, frames),
        listed => {
            let patterns = with_pattern(patterns, pattern)?;
            Ok(closed_patterns(listed, patterns, place, stop))
        }
    }
}

/// Behind a pattern in curly brackets.
fn in_curly(
    alloc: Global,
    patterns: Vec<Pattern>,
    pattern: Pattern,
    place: Place,
    stop: Stop,
    frames: &mut Vec<Frame>,
) -> Result<Option<Mode>, OutOfMemory>
    ensures { IfOk result (λ next. state_view next frames.new.items ≡ behind_first_pattern pure.set_like (pattern_trees (pattern_views patterns.items)) (pattern_view pattern) place (stop_view stop) (stack_view frames.old.items)) }
{
    if is_empty_pattern(&patterns) {
        first_in_curly(alloc, pattern, place, stop, frames)
    } else {
        let patterns = with_pattern(patterns, pattern)?;
        Ok(at_curly(Pattern::set(patterns, place), stop))
    }
}

/// Behind the first pattern in curly brackets.
fn first_in_curly(
    alloc: Global,
    pattern: Pattern,
    place: Place,
    stop: Stop,
    frames: &mut Vec<Frame>,
) -> Result<Option<Mode>, OutOfMemory>
    ensures { IfOk result (λ next. state_view next frames.new.items ≡ behind_first_pattern pure.set_like no_patterns (pattern_view pattern) place (stop_view stop) (stack_view frames.old.items)) }
{
    match stop {
        Stop::MapsTo => {
            let pattern = Box::new(alloc, pattern)?;
            opened_pattern(Frame::PatternValue(Vec::new(alloc), pattern, place), frames)
        }
        Stop::CloseCurly => {
            let patterns = with_pattern(Vec::new(alloc), pattern)?;
            Ok(Some(Mode::HasPattern(Pattern::set(patterns, place))))
        }
        _ => Ok(None),
    }
}

/// Whether there is no pattern.
fn is_empty_pattern(patterns: &[Pattern]) -> bool
    ensures { result ≡ is_empty_patterns (pattern_trees (pattern_views patterns.now)) }
{
    match patterns {
        [] => true,
        _ => false,
    }
}

/// The list, where the word closes it.
fn closed_patterns(
    listed: PatternsFor,
    patterns: Vec<Pattern>,
    place: Place,
    stop: Stop,
) -> Option<Mode>
    ensures { (frames : List FrameView) → state_view result frames ≡ closes_patterns (patterns_for_view listed) (stop_view stop) (in_mode (pure.has_pattern (whole_patterns (patterns_for_view listed) (pattern_trees (pattern_views patterns.items)) place)) (stack_view frames)) }
{
    let tree = whole_patterns(listed, patterns, place);
    match listed {
        PatternsFor::SetLike => at_curly(tree, stop),
        PatternsFor::SequenceLike => at_square(tree, stop),
        _ => at_round(tree, stop),
    }
}

/// The pattern, where the word is `}`.
fn at_curly(tree: Pattern, stop: Stop) -> Option<Mode>
    ensures { (frames : List FrameView) → state_view result frames ≡ at_curly (stop_view stop) (in_mode (pure.has_pattern (pattern_view tree)) (stack_view frames)) }
{
    match stop {
        Stop::CloseCurly => Some(Mode::HasPattern(tree)),
        _ => None,
    }
}

/// The pattern, where the word is `]`.
fn at_square(tree: Pattern, stop: Stop) -> Option<Mode>
    ensures { (frames : List FrameView) → state_view result frames ≡ at_square (stop_view stop) (in_mode (pure.has_pattern (pattern_view tree)) (stack_view frames)) }
{
    match stop {
        Stop::CloseSquare => Some(Mode::HasPattern(tree)),
        _ => None,
    }
}

/// The pattern, where the word is `)`.
fn at_round(tree: Pattern, stop: Stop) -> Option<Mode>
    ensures { (frames : List FrameView) → state_view result frames ≡ at_round (stop_view stop) (in_mode (pure.has_pattern (pattern_view tree)) (stack_view frames)) }
{
    match stop {
        Stop::CloseRound => Some(Mode::HasPattern(tree)),
        _ => None,
    }
}

/// The `,` behind the first part of a tuple.
pub fn tuple_pattern_started(
    alloc: Global,
    pattern: Pattern,
    place: Place,
    stop: Stop,
    frames: &mut Vec<Frame>,
) -> Result<Option<Mode>, OutOfMemory>
    ensures { IfOk result (λ next. state_view next frames.new.items ≡ at_comma (stop_view stop) (in_mode pure.wants_pattern (pure.pattern_items pure.tuple_like (one_pattern (pattern_view pattern) no_patterns) place ∷ stack_view frames.old.items))) }
{
    match stop {
        Stop::Comma => {
            let patterns = with_pattern(Vec::new(alloc), pattern)?;
            opened_pattern(
                Frame::PatternItems(PatternsFor::TupleLike, patterns, place),
                frames,
            )
        }
        _ => Ok(None),
    }
}

/// The `|->` behind a further key.
pub fn pattern_key(
    alloc: Global,
    maplets: Vec<MapletPattern>,
    pattern: Pattern,
    place: Place,
    stop: Stop,
    frames: &mut Vec<Frame>,
) -> Result<Option<Mode>, OutOfMemory>
    ensures { IfOk result (λ next. state_view next frames.new.items ≡ at_maps_to (stop_view stop) (in_mode pure.wants_pattern (pure.pattern_value (maplet_pattern_trees (map maplet_pattern_view maplets.items)) (pattern_view pattern) place ∷ stack_view frames.old.items))) }
{
    match stop {
        Stop::MapsTo => {
            let pattern = Box::new(alloc, pattern)?;
            opened_pattern(Frame::PatternValue(maplets, pattern, place), frames)
        }
        _ => Ok(None),
    }
}

/// Behind the value of a key.
pub fn behind_pattern_value(
    maplets: Vec<MapletPattern>,
    place: Place,
    stop: Stop,
    frames: &mut Vec<Frame>,
) -> Result<Option<Mode>, OutOfMemory>
    ensures { IfOk result (λ next. state_view next frames.new.items ≡ behind_pattern_value (maplet_pattern_trees (map maplet_pattern_view maplets.items)) place (stop_view stop) (stack_view frames.old.items)) }
{
    match stop {
        Stop::Comma => opened_pattern(Frame::PatternKey(maplets, place), frames),
        Stop::CloseCurly => Ok(Some(Mode::HasPattern(Pattern::map(maplets, place)))),
        _ => Ok(None),
    }
}
