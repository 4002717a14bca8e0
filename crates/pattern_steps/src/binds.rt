// Patterns of binds, definitions and cases.

ghost use Rattle.std.specs.Prelude.{◌≡◌, ◌∷◌, IfOk, map};
ghost use Rattle.expr_tree.specs.View.{view_of, pattern_view, pattern_views, pattern_trees, bind_trees, bind_view, defined_trees, defined_view, case_trees, case_view};
ghost use Rattle.grammar_trees.specs.Frames as pure;
ghost use Rattle.grammar_trees.specs.Machine.{in_mode, at_in_set, at_equal, behind_bound, behind_defined, behind_let, behind_case_pattern};
ghost use Rattle.tree_frames.specs.Views.{binds_for_view, stop_view, stack_view, state_view};

use expr_tree::{Bind, Case, Defined, Expr, Pattern};
use std::alloc::Global;
use tree_frames::{BindsFor, Frame, Mode, Stop, pushed, with_pattern};
use tree_nodes::{opened, opened_pattern};
use vdm_kinds::{OutOfMemory, Place};

/// Behind a pattern of a bind.
pub fn behind_bound(
    purpose: BindsFor,
    binds: Vec<Bind>,
    patterns: Vec<Pattern>,
    place: Place,
    stop: Stop,
    frames: &mut Vec<Frame>,
) -> Result<Option<Mode>, OutOfMemory>
    ensures { IfOk result (λ next. state_view next frames.new.items ≡ behind_bound (binds_for_view purpose) (bind_trees (map bind_view binds.items)) (pattern_trees (pattern_views patterns.items)) place (stop_view stop) (stack_view frames.old.items)) }
{
    match stop {
        Stop::Comma => match purpose {
            BindsFor::TheOne => Ok(None),
            purpose => opened_pattern(Frame::BindPatterns(purpose, binds, patterns, place), frames),
        },
        Stop::InSet => opened(Frame::BindSet(purpose, binds, patterns, place), frames),
        _ => Ok(None),
    }
}

/// The `in set` behind the pattern in `[e | p in set S]`.
pub fn sequence_bound(
    alloc: Global,
    item: Box<Expr>,
    pattern: Pattern,
    place: Place,
    stop: Stop,
    frames: &mut Vec<Frame>,
) -> Result<Option<Mode>, OutOfMemory>
    ensures { IfOk result (λ next. state_view next frames.new.items ≡ at_in_set (stop_view stop) (in_mode pure.wants (pure.sequence_set (view_of item.value) (pattern_view pattern) place ∷ stack_view frames.old.items))) }
{
    match stop {
        Stop::InSet => {
            let pattern = Box::new(alloc, pattern)?;
            opened(Frame::SequenceSet(item, pattern, place), frames)
        }
        _ => Ok(None),
    }
}

/// Behind the pattern of a definition.
pub fn behind_defined(
    alloc: Global,
    definitions: Vec<Defined>,
    pattern: Pattern,
    place: Place,
    stop: Stop,
    frames: &mut Vec<Frame>,
) -> Result<Option<Mode>, OutOfMemory>
    ensures { IfOk result (λ next. state_view next frames.new.items ≡ behind_defined (defined_trees (map defined_view definitions.items)) (pattern_view pattern) place (stop_view stop) (stack_view frames.old.items)) }
{
    match stop {
        Stop::Colon => {
            let pattern = Box::new(alloc, pattern)?;
            pushed(frames, Frame::LetType(definitions, pattern, place))?;
            Ok(Some(Mode::Typing(Vec::new(alloc))))
        }
        Stop::Equal => {
            let pattern = Box::new(alloc, pattern)?;
            opened(Frame::LetValue(definitions, pattern, None, place), frames)
        }
        _ => Ok(None),
    }
}

/// Behind the first pattern of a `let`.
pub fn behind_let(
    alloc: Global,
    pattern: Pattern,
    place: Place,
    stop: Stop,
    frames: &mut Vec<Frame>,
) -> Result<Option<Mode>, OutOfMemory>
    ensures { IfOk result (λ next. state_view next frames.new.items ≡ behind_let (pattern_view pattern) place (stop_view stop) (stack_view frames.old.items)) }
{
    match stop {
        Stop::Comma => {
            let patterns = with_pattern(Vec::new(alloc), pattern)?;
            let binds = Vec::new(alloc);
            opened_pattern(
                Frame::BindPatterns(BindsFor::SuchOne, binds, patterns, place),
                frames,
            )
        }
        Stop::InSet => {
            let patterns = with_pattern(Vec::new(alloc), pattern)?;
            let binds = Vec::new(alloc);
            opened(
                Frame::BindSet(BindsFor::SuchOne, binds, patterns, place),
                frames,
            )
        }
        stop => behind_defined(alloc, Vec::new(alloc), pattern, place, stop, frames),
    }
}

/// The `=` behind the pattern of a `def`.
pub fn def_pattern(
    alloc: Global,
    pattern: Pattern,
    place: Place,
    stop: Stop,
    frames: &mut Vec<Frame>,
) -> Result<Option<Mode>, OutOfMemory>
    ensures { IfOk result (λ next. state_view next frames.new.items ≡ at_equal (stop_view stop) (in_mode pure.wants (pure.def_value (pattern_view pattern) place ∷ stack_view frames.old.items))) }
{
    match stop {
        Stop::Equal => {
            let pattern = Box::new(alloc, pattern)?;
            opened(Frame::DefValue(pattern, place), frames)
        }
        _ => Ok(None),
    }
}

/// Behind a pattern of a case.
pub fn behind_case_pattern(
    subject: Box<Expr>,
    cases: Vec<Case>,
    patterns: Vec<Pattern>,
    place: Place,
    stop: Stop,
    frames: &mut Vec<Frame>,
) -> Result<Option<Mode>, OutOfMemory>
    ensures { IfOk result (λ next. state_view next frames.new.items ≡ behind_case_pattern (view_of subject.value) (case_trees (map case_view cases.items)) (pattern_trees (pattern_views patterns.items)) place (stop_view stop) (stack_view frames.old.items)) }
{
    match stop {
        Stop::Comma => opened_pattern(Frame::CasePatterns(subject, cases, patterns, place), frames),
        Stop::Arrow => opened(Frame::CaseValue(subject, cases, patterns, place), frames),
        _ => Ok(None),
    }
}
