// Binds, behind an expression.

ghost use Rattle.std.specs.Prelude.{◌≡◌, ◌∷◌, IfOk, map};
ghost use Rattle.abstract_syntax.specs.Expressions.{no_patterns};
ghost use Rattle.expr_tree.specs.View.{view_of, pattern_view, bind_view, bind_trees};
ghost use Rattle.expr_parts.specs.At.{behind_last};
ghost use Rattle.grammar_trees.specs.Frames.{wants_pattern, bind_patterns, set_such, map_such, set_each, map_each, all_of, some_of, all_body, some_body};
ghost use Rattle.grammar_trees.specs.Machine.{in_mode, behind_set, behind_sequence_set, behind_comprehension, behind_quantified, behind_one, behind_such};
ghost use Rattle.tree_frames.specs.Views.{binds_for_view, body_view, conditioned_view, stop_view, stack_view, state_view};

use crate::collections::end_condition;
use crate::wanted::opened_at;
use expr_tree::{Bind, Expr, Pattern};
use std::alloc::Global;
use tree_frames::{BindsFor, Body, Conditioned, Frame, Header, Mode, Stop, with_bind};
use tree_nodes::{awaiting, opened, opened_pattern};
use vdm_kinds::{OutOfMemory, Place};

/// A further bind.
fn next_bind(
    alloc: Global,
    purpose: BindsFor,
    binds: Vec<Bind>,
    place: Place,
    frames: &mut Vec<Frame>,
) -> Result<Option<Mode>, OutOfMemory>
    ensures { IfOk result (λ next. state_view next frames.new.items ≡ in_mode wants_pattern (bind_patterns (binds_for_view purpose) (bind_trees (map bind_view binds.items)) no_patterns place ∷ stack_view frames.old.items)) }
{
    opened_pattern(
        Frame::BindPatterns(purpose, binds, Vec::new(alloc), place),
        frames,
    )
}

/// Behind the set of a bind.
pub fn behind_set(
    alloc: Global,
    purpose: BindsFor,
    binds: Vec<Bind>,
    bind: Bind,
    place: Place,
    stop: Stop,
    frames: &mut Vec<Frame>,
) -> Result<Option<Mode>, OutOfMemory>
    ensures { IfOk result (λ next. state_view next frames.new.items ≡ behind_set (binds_for_view purpose) (bind_trees (map bind_view binds.items)) (bind_view bind) place (stop_view stop) (stack_view frames.old.items)) }
{
    match purpose {
        BindsFor::SetEach(element) => {
            let binds = with_bind(binds, bind)?;
            behind_set_binds(alloc, element, binds, place, stop, frames)
        }
        BindsFor::MapEach(key, value) => {
            let binds = with_bind(binds, bind)?;
            behind_map_binds(alloc, key, value, binds, place, stop, frames)
        }
        BindsFor::AllOf => {
            let binds = with_bind(binds, bind)?;
            behind_all_binds(alloc, binds, place, stop, frames)
        }
        BindsFor::SomeOf => {
            let binds = with_bind(binds, bind)?;
            behind_some_binds(alloc, binds, place, stop, frames)
        }
        BindsFor::OneOf => behind_one(Body::One(Box::new(alloc, bind)?), place, stop, frames),
        BindsFor::TheOne => behind_one(Body::The(Box::new(alloc, bind)?), place, stop, frames),
        BindsFor::SuchOne => behind_such(Box::new(alloc, bind)?, place, stop, frames),
    }
}

/// Behind the binds of a comprehension of a set.
fn behind_set_binds(
    alloc: Global,
    element: Box<Expr>,
    binds: Vec<Bind>,
    place: Place,
    stop: Stop,
    frames: &mut Vec<Frame>,
) -> Result<Option<Mode>, OutOfMemory>
    ensures { IfOk result (λ next. state_view next frames.new.items ≡ behind_comprehension (set_such (view_of element.value) (bind_trees (map bind_view binds.items))) (set_each (view_of element.value)) (bind_trees (map bind_view binds.items)) place (stop_view stop) (stack_view frames.old.items)) }
{
    match stop {
        Stop::Comma => next_bind(alloc, BindsFor::SetEach(element), binds, place, frames),
        stop => behind_last(
            alloc,
            Conditioned::SetSuch(element, binds),
            place,
            stop,
            frames,
        ),
    }
}

/// Behind the binds of a comprehension of a map.
fn behind_map_binds(
    alloc: Global,
    key: Box<Expr>,
    value: Box<Expr>,
    binds: Vec<Bind>,
    place: Place,
    stop: Stop,
    frames: &mut Vec<Frame>,
) -> Result<Option<Mode>, OutOfMemory>
    ensures { IfOk result (λ next. state_view next frames.new.items ≡ behind_comprehension (map_such (view_of key.value) (view_of value.value) (bind_trees (map bind_view binds.items))) (map_each (view_of key.value) (view_of value.value)) (bind_trees (map bind_view binds.items)) place (stop_view stop) (stack_view frames.old.items)) }
{
    match stop {
        Stop::Comma => next_bind(alloc, BindsFor::MapEach(key, value), binds, place, frames),
        stop => behind_last(
            alloc,
            Conditioned::MapSuch(key, value, binds),
            place,
            stop,
            frames,
        ),
    }
}

/// Behind the binds of a `forall`.
fn behind_all_binds(
    alloc: Global,
    binds: Vec<Bind>,
    place: Place,
    stop: Stop,
    frames: &mut Vec<Frame>,
) -> Result<Option<Mode>, OutOfMemory>
    ensures { IfOk result (λ next. state_view next frames.new.items ≡ behind_quantified (all_body (bind_trees (map bind_view binds.items))) all_of (bind_trees (map bind_view binds.items)) place (stop_view stop) (stack_view frames.old.items)) }
{
    match stop {
        Stop::Comma => next_bind(alloc, BindsFor::AllOf, binds, place, frames),
        stop => behind_one(Body::All(binds), place, stop, frames),
    }
}

/// Behind the binds of an `exists`.
fn behind_some_binds(
    alloc: Global,
    binds: Vec<Bind>,
    place: Place,
    stop: Stop,
    frames: &mut Vec<Frame>,
) -> Result<Option<Mode>, OutOfMemory>
    ensures { IfOk result (λ next. state_view next frames.new.items ≡ behind_quantified (some_body (bind_trees (map bind_view binds.items))) some_of (bind_trees (map bind_view binds.items)) place (stop_view stop) (stack_view frames.old.items)) }
{
    match stop {
        Stop::Comma => next_bind(alloc, BindsFor::SomeOf, binds, place, frames),
        stop => behind_one(Body::Some(binds), place, stop, frames),
    }
}

/// Behind the binds of a quantified expression: its condition.
fn behind_one(
    body: Body,
    place: Place,
    stop: Stop,
    frames: &mut Vec<Frame>,
) -> Result<Option<Mode>, OutOfMemory>
    ensures { IfOk result (λ next. state_view next frames.new.items ≡ behind_one (body_view body) place (stop_view stop) (stack_view frames.old.items)) }
{
    opened_at(Stop::Ampersand, Frame::Body(body, place), stop, frames)
}

/// Behind the bind of a `let`: a condition, or the body.
fn behind_such(
    bind: Box<Bind>,
    place: Place,
    stop: Stop,
    frames: &mut Vec<Frame>,
) -> Result<Option<Mode>, OutOfMemory>
    ensures { IfOk result (λ next. state_view next frames.new.items ≡ behind_such (bind_view bind.value) place (stop_view stop) (stack_view frames.old.items)) }
{
    match stop {
        Stop::Be => Ok(awaiting(Header::StThen(Frame::LetSuch(bind, place)))),
        stop => opened_at(
            Stop::In,
            Frame::Body(Body::Such(bind, None), place),
            stop,
            frames,
        ),
    }
}

/// Behind the set of the bind in `[e | p in set S]`.
pub fn behind_sequence_set(
    alloc: Global,
    item: Box<Expr>,
    pattern: Box<Pattern>,
    set: Box<Expr>,
    place: Place,
    stop: Stop,
    frames: &mut Vec<Frame>,
) -> Result<Option<Mode>, OutOfMemory>
    ensures { IfOk result (λ next. state_view next frames.new.items ≡ behind_sequence_set (view_of item.value) (pattern_view pattern.value) (view_of set.value) place (stop_view stop) (stack_view frames.old.items)) }
{
    let such = Conditioned::SequenceSuch(item, pattern, set);
    behind_last(alloc, such, place, stop, frames)
}

/// Behind the last bind of a comprehension: a condition, or the end.
fn behind_last(
    alloc: Global,
    such: Conditioned,
    place: Place,
    stop: Stop,
    frames: &mut Vec<Frame>,
) -> Result<Option<Mode>, OutOfMemory>
    ensures { IfOk result (λ next. state_view next frames.new.items ≡ behind_last (conditioned_view such) place (stop_view stop) (stack_view frames.old.items)) }
{
    match stop {
        Stop::Ampersand => opened(Frame::Condition(such, place), frames),
        stop => end_condition(alloc, such, None, place, stop),
    }
}
