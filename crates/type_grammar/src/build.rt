// The type that tokens are.

ghost use Rattle.std.specs.Prelude.{◌≡◌, IfOk, option_map};
ghost use Rattle.type_tree.specs.TypeView.{type_view};
ghost use Rattle.grammar_tokens.specs.View.{token_views};
ghost use Rattle.type_reading.specs.Reading.{finished, type_of, whole, all_closed};
ghost use Rattle.type_grammar.specs.Views.{mode_view, stack_view};

use crate::ends::{all_closed, settled};
use crate::frame::Frame;
use crate::mode::Mode;
use crate::nodes::name_alone;
use crate::stack::popped;
use crate::steps::step;
use grammar_tokens::Token;
use std::alloc::Global;
use type_tree::TypeExpr;
use vdm_kinds::OutOfMemory;

/// The type that the tokens are, from the first to the last; none where they are no type.
pub fn build_type(alloc: Global, tokens: &[Token]) -> Result<Option<TypeExpr>, OutOfMemory>
    ensures { IfOk result (λ built. option_map type_view built ≡ type_of (token_views tokens.now)) }
{
    let mut frames = Vec::new(alloc);
    let mut mode = Mode::Wants;
    for token in tokens {
        let Some(next) = step(alloc, mode, &mut frames, token)? else {
            return Ok(None);
        };
        mode = next;
    }
    finished(alloc, mode, &mut frames)
}

/// The type that was read at the end of the tokens.
fn finished(
    alloc: Global,
    mode: Mode,
    frames: &mut Vec<Frame>,
) -> Result<Option<TypeExpr>, OutOfMemory>
    ensures { IfOk result (λ built. option_map type_view built ≡ finished (mode_view mode) (stack_view frames.old.items)) }
{
    match mode {
        Mode::Has(tree) => whole(tree, frames),
        Mode::Named(name, place) => {
            let tree = settled(alloc, name_alone(name, place), frames)?;
            whole(tree, frames)
        }
        _ => Ok(None),
    }
}

/// The type that a single type ends, where nothing is open round it.
fn whole(tree: TypeExpr, frames: &mut Vec<Frame>) -> Result<Option<TypeExpr>, OutOfMemory>
    ensures { IfOk result (λ built. option_map type_view built ≡ whole (all_closed (type_view tree) (stack_view frames.old.items)).tree (all_closed (type_view tree) (stack_view frames.old.items)).frames) }
{
    let tree = all_closed(tree, frames)?;
    match popped(frames) {
        None => Ok(Some(tree)),
        Some(_frame) => Ok(None),
    }
}
