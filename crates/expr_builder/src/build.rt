// The tree that tokens are.

ghost use Rattle.std.specs.Prelude.{◌≡◌, IfOk, option_map};
ghost use Rattle.expr_tree.specs.View.{view_of, pattern_view};
ghost use Rattle.expr_builder.specs.Settling.{ended};
ghost use Rattle.grammar_tokens.specs.View.{token_views};
ghost use Rattle.grammar_trees.specs.Machine.{in_mode, run};
ghost use Rattle.grammar_trees.specs.Reading.{expr_of, pattern_of};
ghost use Rattle.tree_frames.specs.Views.{mode_view, stack_view, state_view};
ghost use Rattle.type_reading.specs.Reading.{type_of};

use crate::ends::{end_expr, end_pattern};
use crate::steps::step;
use expr_tree::{Expr, Pattern};
use grammar_tokens::Token;
use std::alloc::Global;
use tree_frames::{Frame, Mode};
use vdm_kinds::OutOfMemory;

/// The expression that the tokens are, from the first to the last; none where they are no expression.
pub fn build_expr(alloc: Global, tokens: Vec<Token>) -> Result<Option<Expr>, OutOfMemory>
    ensures { IfOk result (λ built. option_map view_of built ≡ expr_of (token_views tokens.items)) }
{
    let mut frames = Vec::new(alloc);
    match read(alloc, Mode::Wants, tokens, &mut frames)? {
        Some(mode) => end_expr(alloc, mode, &mut frames),
        None => Ok(None),
    }
}

/// The pattern that the tokens are, from the first to the last; none where they are no pattern.
pub fn build_pattern(alloc: Global, tokens: Vec<Token>) -> Result<Option<Pattern>, OutOfMemory>
    ensures { IfOk result (λ built. option_map pattern_view built ≡ pattern_of (token_views tokens.items)) }
{
    let mut frames = Vec::new(alloc);
    match read(alloc, Mode::WantsPattern, tokens, &mut frames)? {
        Some(mode) => end_pattern(mode, &mut frames),
        None => Ok(None),
    }
}

/// What comes behind all of the tokens; none where no tree goes on with them.
fn read(
    alloc: Global,
    first: Mode,
    tokens: Vec<Token>,
    frames: &mut Vec<Frame>,
) -> Result<Option<Mode>, OutOfMemory>
    ensures { IfOk result (λ last. run type_of (token_views tokens.items) (in_mode (mode_view first) (stack_view frames.old.items)) ≡ ended (state_view last frames.new.items)) }
{
    let mut mode = first;
    for token in tokens {
        let Some(next) = step(alloc, mode, frames, token)? else {
            return Ok(None);
        };
        mode = next;
    }
    Ok(Some(mode))
}
