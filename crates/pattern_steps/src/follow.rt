// What follows a pattern.

ghost use Rattle.std.specs.Prelude.{◌≡◌, [], ◌∷◌, IfOk, MatchOption};
ghost use Rattle.expr_tree.specs.View.{pattern_view, pattern_views, pattern_trees};
ghost use Rattle.grammar_tokens.specs.View.{token_view};
ghost use Rattle.abstract_syntax.specs.Expressions.{pattern_place};
ghost use Rattle.grammar_trees.specs.Frames.{wants_pattern, concatenated};
ghost use Rattle.grammar_trees.specs.Lists.{only_pattern};
ghost use Rattle.grammar_trees.specs.Machine.{follow_pattern, follow_pattern_word, follow_single, follow_joined, joins, in_mode};
ghost use Rattle.tree_frames.specs.Views.{frame_view, stack_view, state_view};

use crate::taken::{pattern_taken_by, taken_pattern};
use expr_tree::Pattern;
use grammar_tokens::Token;
use grammar_words::Word;
use std::alloc::Global;
use tree_frames::{Frame, Mode, pushed, with_pattern};
use tree_nodes::{joins, opened_pattern, stop_of};
use vdm_kinds::{OutOfMemory, Place};

/// A token behind a pattern.
pub fn follow_pattern(
    alloc: Global,
    pattern: Pattern,
    token: Token,
    frames: &mut Vec<Frame>,
) -> Result<Option<Mode>, OutOfMemory>
    ensures { IfOk result (λ next. state_view next frames.new.items ≡ follow_pattern (token_view token) (pattern_view pattern) (stack_view frames.old.items)) }
{
    match token {
        Token::Plain(word, _) => follow_word(alloc, pattern, word, frames),
        _ => Ok(None),
    }
}

/// A word behind a pattern.
fn follow_word(
    alloc: Global,
    pattern: Pattern,
    word: Word,
    frames: &mut Vec<Frame>,
) -> Result<Option<Mode>, OutOfMemory>
    ensures { IfOk result (λ next. state_view next frames.new.items ≡ follow_pattern_word word (pattern_view pattern) (stack_view frames.old.items)) }
{
    match innermost(frames) {
        None => follow_alone(alloc, pattern, word, frames),
        Some(frame) => follow_framed(alloc, frame, pattern, word, frames),
    }
}

/// The innermost frame, which is taken off; where there is none, nothing is open afterwards either.
fn innermost(frames: &mut Vec<Frame>) -> Option<Frame>
    ensures { MatchOption result ((stack_view frames.old.items ≡ []) × (stack_view frames.new.items ≡ [])) (λ frame. stack_view frames.old.items ≡ frame_view frame ∷ stack_view frames.new.items) }
{
    frames.pop()
}

/// A word behind a pattern that is read for a frame.
fn follow_framed(
    alloc: Global,
    frame: Frame,
    pattern: Pattern,
    word: Word,
    frames: &mut Vec<Frame>,
) -> Result<Option<Mode>, OutOfMemory>
    ensures { IfOk result (λ next. state_view next frames.new.items ≡ follow_pattern_word word (pattern_view pattern) (frame_view frame ∷ stack_view frames.old.items)) }
{
    match frame {
        Frame::Concatenated(patterns, place) => {
            let patterns = with_pattern(patterns, pattern)?;
            follow_joined(alloc, patterns, word, place, frames)
        }
        frame => follow_single(alloc, frame, pattern, word, frames),
    }
}

/// A word behind a pattern that nothing stands before.
fn follow_alone(
    alloc: Global,
    pattern: Pattern,
    word: Word,
    frames: &mut Vec<Frame>,
) -> Result<Option<Mode>, OutOfMemory>
    ensures { IfOk result (λ next. state_view next frames.new.items ≡ follow_single (joins word) word (pattern_view pattern) (stack_view frames.old.items)) }
{
    if joins(word) {
        joined(alloc, pattern, frames)
    } else {
        pattern_taken_by(alloc, pattern, stop_of(word), frames)
    }
}

/// A word behind a pattern that no `^` stands before.
fn follow_single(
    alloc: Global,
    frame: Frame,
    pattern: Pattern,
    word: Word,
    frames: &mut Vec<Frame>,
) -> Result<Option<Mode>, OutOfMemory>
    ensures { IfOk result (λ next. state_view next frames.new.items ≡ follow_single (joins word) word (pattern_view pattern) (frame_view frame ∷ stack_view frames.old.items)) }
{
    if joins(word) {
        pushed(frames, frame)?;
        joined(alloc, pattern, frames)
    } else {
        taken_pattern(alloc, frame, pattern, stop_of(word), frames)
    }
}

/// The first `^` behind a pattern.
fn joined(
    alloc: Global,
    pattern: Pattern,
    frames: &mut Vec<Frame>,
) -> Result<Option<Mode>, OutOfMemory>
    ensures { IfOk result (λ next. state_view next frames.new.items ≡ in_mode wants_pattern (concatenated (only_pattern (pattern_view pattern)) (pattern_place (pattern_view pattern)) ∷ stack_view frames.old.items)) }
{
    let place = pattern.place();
    let patterns = with_pattern(Vec::new(alloc), pattern)?;
    opened_pattern(Frame::Concatenated(patterns, place), frames)
}

/// A word behind a pattern that a `^` stands before.
fn follow_joined(
    alloc: Global,
    patterns: Vec<Pattern>,
    word: Word,
    place: Place,
    frames: &mut Vec<Frame>,
) -> Result<Option<Mode>, OutOfMemory>
    ensures { IfOk result (λ next. state_view next frames.new.items ≡ follow_joined (joins word) word (pattern_trees (pattern_views patterns.items)) place (stack_view frames.old.items)) }
{
    if joins(word) {
        opened_pattern(Frame::Concatenated(patterns, place), frames)
    } else {
        pattern_taken_by(
            alloc,
            Pattern::concatenation(patterns, place),
            stop_of(word),
            frames,
        )
    }
}
