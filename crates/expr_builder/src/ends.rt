// The tree at the end of the tokens.

ghost use Rattle.std.specs.Prelude.{◌≡◌, IfOk, option_map};
ghost use Rattle.expr_tree.specs.View.{view_of, pattern_view};
ghost use Rattle.grammar_trees.specs.Machine.{end_pattern, end_in};
ghost use Rattle.grammar_trees.specs.Reading.{built_expr, built_pattern};
ghost use Rattle.expr_builder.specs.Settling.{alone, alone_pattern};
ghost use Rattle.tree_frames.specs.Views.{mode_view, stack_view};

use crate::settling::settled;
use expr_tree::{Expr, Pattern};
use std::alloc::Global;
use tree_frames::{Frame, Mode, popped, with_pattern};
use vdm_kinds::OutOfMemory;

/// How strongly the end of the tokens pulls: not at all.
const END: u32 = 0;

/// The expression that was read, at the end of the tokens.
pub fn end_expr(
    alloc: Global,
    mode: Mode,
    frames: &mut Vec<Frame>,
) -> Result<Option<Expr>, OutOfMemory>
    ensures { IfOk result (λ built. option_map view_of built ≡ built_expr (end_in (mode_view mode) (stack_view frames.old.items))) }
{
    match mode {
        Mode::Has(tree) => {
            let tree = settled(alloc, END, tree, frames)?;
            Ok(alone(tree, frames))
        }
        mode => {
            mode.discard();
            Ok(None)
        }
    }
}

/// The expression, where nothing is open round it.
fn alone(tree: Box<Expr>, frames: &mut Vec<Frame>) -> Option<Expr>
    ensures { option_map view_of result ≡ built_expr (alone (view_of tree.value) (stack_view frames.old.items)) }
{
    match popped(frames) {
        None => Some(Box::into_inner(tree)),
        Some(frame) => {
            frame.discard();
            Mode::Has(tree).discard();
            None
        }
    }
}

/// The pattern that was read, at the end of the tokens.
pub fn end_pattern(mode: Mode, frames: &mut Vec<Frame>) -> Result<Option<Pattern>, OutOfMemory>
    ensures { IfOk result (λ built. option_map pattern_view built ≡ built_pattern (end_in (mode_view mode) (stack_view frames.old.items))) }
{
    match mode {
        Mode::HasPattern(pattern) => joined(pattern, frames),
        Mode::Has(tree) => {
            Mode::Has(tree).discard();
            Ok(None)
        }
        mode => {
            mode.discard();
            Ok(None)
        }
    }
}

/// The pattern, which may be the last of those with `^` between them, where nothing else is open.
fn joined(pattern: Pattern, frames: &mut Vec<Frame>) -> Result<Option<Pattern>, OutOfMemory>
    ensures { IfOk result (λ built. option_map pattern_view built ≡ built_pattern (end_pattern (pattern_view pattern) (stack_view frames.old.items))) }
{
    match popped(frames) {
        None => Ok(Some(pattern)),
        Some(Frame::Concatenated(parts, place)) => {
            let parts = with_pattern(parts, pattern)?;
            Ok(alone_pattern(Pattern::concatenation(parts, place), frames))
        }
        Some(frame) => {
            frame.discard();
            Mode::HasPattern(pattern).discard();
            Ok(None)
        }
    }
}

/// The pattern, where nothing is open round it.
fn alone_pattern(pattern: Pattern, frames: &mut Vec<Frame>) -> Option<Pattern>
    ensures { option_map pattern_view result ≡ built_pattern (alone_pattern (pattern_view pattern) (stack_view frames.old.items)) }
{
    match popped(frames) {
        None => Some(pattern),
        Some(frame) => {
            frame.discard();
            Mode::HasPattern(pattern).discard();
            None
        }
    }
}
