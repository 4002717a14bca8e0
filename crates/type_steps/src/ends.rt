// The ends of types.

ghost use Rattle.std.specs.Prelude.{◌≡◌, ◌∷◌, ◌++◌, [], List, IfOk, map};
ghost use Rattle.expr_tree.specs.View.{view_of, pattern_view, defined_trees, defined_view};
ghost use Rattle.grammar_tokens.specs.View.{token_view, token_views};
ghost use Rattle.grammar_trees.specs.Frames.{typing};
ghost use Rattle.grammar_trees.specs.Machine.{end_test, end_let};
ghost use Rattle.tree_frames.specs.declared.frame.Frame.{Frame as FrameView};
ghost use Rattle.tree_frames.specs.Views.{mode_view, stack_view, state_view};
ghost use Rattle.type_reading.specs.Reading.{type_of};

use expr_tree::{Defined, Expr, Pattern};
use grammar_tokens::Token;
use std::alloc::Global;
use tree_frames::{Frame, Mode, boxed, pushed};
use type_grammar::build_type;
use vdm_kinds::{OutOfMemory, Place};

/// A token more of a type.
pub fn collected(tokens: Vec<Token>, token: Token) -> Result<Mode, OutOfMemory>
    ensures { IfOk result (λ mode. mode_view mode ≡ typing (token_views tokens.items ++ token_view token ∷ [])) }
{
    let mut tokens = tokens;
    tokens.push(token)?;
    Ok(Mode::Typing(tokens))
}

/// The end of the type that `is_` asks for.
pub fn end_test(
    alloc: Global,
    tokens: Vec<Token>,
    tree: Box<Expr>,
    place: Place,
) -> Result<Option<Mode>, OutOfMemory>
    ensures { IfOk result (λ next. (frames : List FrameView) → state_view next frames ≡ end_test (type_of (token_views tokens.items)) (view_of tree.value) place (stack_view frames)) }
{
    match build_type(alloc, &tokens)? {
        None => Ok(None),
        Some(declared) => {
            let tree = boxed(alloc, Expr::is_of_type(tree, declared, place))?;
            Ok(Some(Mode::Has(tree)))
        }
    }
}

/// The end of the type of a definition.
pub fn end_let(
    alloc: Global,
    tokens: Vec<Token>,
    definitions: Vec<Defined>,
    pattern: Box<Pattern>,
    place: Place,
    frames: &mut Vec<Frame>,
) -> Result<Option<Mode>, OutOfMemory>
    ensures { IfOk result (λ next. state_view next frames.new.items ≡ end_let (type_of (token_views tokens.items)) (defined_trees (map defined_view definitions.items)) (pattern_view pattern.value) place (stack_view frames.old.items)) }
{
    match build_type(alloc, &tokens)? {
        None => Ok(None),
        Some(declared) => {
            pushed(
                frames,
                Frame::LetValue(definitions, pattern, Some(declared), place),
            )?;
            Ok(Some(Mode::Wants))
        }
    }
}
