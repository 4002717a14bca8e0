// What a token does.

ghost use Rattle.std.specs.Prelude.{◌≡◌, IfOk};
ghost use Rattle.grammar_tokens.specs.View.{token_view};
ghost use Rattle.type_reading.specs.Reading.{type_of};
ghost use Rattle.grammar_trees.specs.Machine.{in_mode, step};
ghost use Rattle.tree_frames.specs.Views.{mode_view, stack_view, state_view};

use crate::follow::follow;
use expr_starts::{want, want_pattern};
use grammar_tokens::Token;
use header_steps::awaited;
use pattern_steps::follow_pattern;
use std::alloc::Global;
use tree_frames::{Frame, Mode};
use type_steps::type_on;
use vdm_kinds::OutOfMemory;

/// What comes behind a token; none where no tree goes on with it.
pub fn step(
    alloc: Global,
    mode: Mode,
    frames: &mut Vec<Frame>,
    token: Token,
) -> Result<Option<Mode>, OutOfMemory>
    ensures { IfOk result (λ next. state_view next frames.new.items ≡ step type_of (in_mode (mode_view mode) (stack_view frames.old.items)) (token_view token)) }
{
    match mode {
        Mode::Wants => want(alloc, token, frames),
        Mode::Has(tree) => follow(alloc, tree, token, frames),
        Mode::WantsPattern => want_pattern(alloc, token, frames),
        Mode::HasPattern(pattern) => follow_pattern(alloc, pattern, token, frames),
        Mode::Awaits(header) => awaited(alloc, header, token, frames),
        Mode::Typing(tokens) => type_on(alloc, tokens, token, frames),
    }
}
