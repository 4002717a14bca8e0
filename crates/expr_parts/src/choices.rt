// Choices, behind an expression.

ghost use Rattle.std.specs.Prelude.{◌≡◌, ◌∷◌, IfOk, map};
ghost use Rattle.abstract_syntax.specs.Expressions as trees;
ghost use Rattle.expr_tree.specs.View.{view_of, branch_trees, branch_view, case_trees, case_view};
ghost use Rattle.grammar_trees.specs.Frames as pure;
ghost use Rattle.grammar_trees.specs.Machine.{at_colon, behind_branch, behind_case, in_mode};
ghost use Rattle.tree_frames.specs.Views.{stop_view, stack_view, state_view};

use crate::wanted::{next_at, opened_at};
use expr_tree::{Branch, Case, Expr};
use std::alloc::Global;
use tree_frames::{Body, Frame, Mode, Stop, boxed};
use tree_nodes::{opened, opened_pattern};
use vdm_kinds::{OutOfMemory, Place};

/// Behind a value of an `if`, whose `elseif`s so far are given.
pub fn behind_branch(
    test: Box<Expr>,
    value: Box<Expr>,
    elseifs: Vec<Branch>,
    place: Place,
    stop: Stop,
    frames: &mut Vec<Frame>,
) -> Result<Option<Mode>, OutOfMemory>
    ensures { IfOk result (λ next. state_view next frames.new.items ≡ behind_branch (view_of test.value) (view_of value.value) (branch_trees (map branch_view elseifs.items)) place (stop_view stop) (stack_view frames.old.items)) }
{
    match stop {
        Stop::Elseif => opened(Frame::ElseifTest(test, value, elseifs, place), frames),
        stop => {
            let frame = Frame::Body(Body::Else(test, value, elseifs), place);
            opened_at(Stop::Else, frame, stop, frames)
        }
    }
}

/// The `:` behind what `cases` looks at.
pub fn subject(
    alloc: Global,
    tree: Box<Expr>,
    place: Place,
    stop: Stop,
    frames: &mut Vec<Frame>,
) -> Result<Option<Mode>, OutOfMemory>
    ensures { IfOk result (λ next. state_view next frames.new.items ≡ at_colon (stop_view stop) (in_mode pure.wants_pattern (pure.case_patterns (view_of tree.value) trees.no_cases trees.no_patterns place ∷ (stack_view frames.old.items)))) }
{
    match stop {
        Stop::Colon => next_case(alloc, tree, Vec::new(alloc), place, frames),
        _ => {
            Mode::Has(tree).discard();
            Ok(None)
        }
    }
}

/// Behind the value of a case.
pub fn behind_case(
    alloc: Global,
    subject: Box<Expr>,
    cases: Vec<Case>,
    place: Place,
    stop: Stop,
    frames: &mut Vec<Frame>,
) -> Result<Option<Mode>, OutOfMemory>
    ensures { IfOk result (λ next. state_view next frames.new.items ≡ behind_case (view_of subject.value) (case_trees (map case_view cases.items)) place (stop_view stop) (stack_view frames.old.items)) }
{
    match stop {
        Stop::Comma => next_case(alloc, subject, cases, place, frames),
        stop => {
            let tree = boxed(alloc, Expr::cases(subject, cases, None, place))?;
            Ok(next_at(Stop::End, Mode::Has(tree), stop))
        }
    }
}

/// A further case.
fn next_case(
    alloc: Global,
    subject: Box<Expr>,
    cases: Vec<Case>,
    place: Place,
    frames: &mut Vec<Frame>,
) -> Result<Option<Mode>, OutOfMemory>
    ensures { IfOk result (λ next. state_view next frames.new.items ≡ in_mode pure.wants_pattern (pure.case_patterns (view_of subject.value) (case_trees (map case_view cases.items)) trees.no_patterns place ∷ stack_view frames.old.items)) }
{
    let frame = Frame::CasePatterns(subject, cases, Vec::new(alloc), place);
    opened_pattern(frame, frames)
}
