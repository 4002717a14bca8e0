// A token of a type, or the one that ends it.

ghost use Rattle.std.specs.Prelude.{◌≡◌, IfOk};
ghost use Rattle.grammar_tokens.specs.View.{token_view, token_views};
ghost use Rattle.grammar_words.specs.Tokens.{plain};
ghost use Rattle.grammar_words.specs.declared.word.Word.TheVariants as word_is;
ghost use Rattle.grammar_trees.specs.Machine.{type_on, close_type, close_square_type, equal_type, sign_of_type, word_of_type};
ghost use Rattle.tree_frames.specs.Views.{stack_view, state_view};
ghost use Rattle.type_reading.specs.Reading.{type_of};

use crate::ends::{collected, end_let, end_test};
use grammar_tokens::Token;
use grammar_words::Word;
use std::alloc::Global;
use tree_frames::{Frame, Mode, popped, pushed};
use vdm_kinds::{OutOfMemory, Place, Sign};

/// A token of a type, or the one that ends it.
pub fn type_on(
    alloc: Global,
    tokens: Vec<Token>,
    token: Token,
    frames: &mut Vec<Frame>,
) -> Result<Option<Mode>, OutOfMemory>
    ensures { IfOk result (λ next. state_view next frames.new.items ≡ type_on type_of (token_view token) (token_views tokens.items) (stack_view frames.old.items)) }
{
    match token {
        Token::Plain(word, place) => word_of_type(alloc, tokens, word, place, frames),
        token => Ok(Some(collected(tokens, token)?)),
    }
}

/// A word of a type, or the one that ends it.
fn word_of_type(
    alloc: Global,
    tokens: Vec<Token>,
    word: Word,
    place: Place,
    frames: &mut Vec<Frame>,
) -> Result<Option<Mode>, OutOfMemory>
    ensures { IfOk result (λ next. state_view next frames.new.items ≡ word_of_type type_of word (token_views tokens.items) (plain word place) (stack_view frames.old.items)) }
{
    match word {
        Word::OpenRound | Word::OpenSquare => {
            pushed(frames, Frame::TypeBracket)?;
            Ok(Some(collected(tokens, Token::Plain(word, place))?))
        }
        Word::CloseRound => close_type(alloc, tokens, place, frames),
        Word::CloseSquare => close_square_type(tokens, place, frames),
        Word::Operator(sign) => sign_of_type(alloc, tokens, sign, place, frames),
        word => Ok(Some(collected(tokens, Token::Plain(word, place))?)),
    }
}

/// A sign in a type, or the `=` behind it.
fn sign_of_type(
    alloc: Global,
    tokens: Vec<Token>,
    sign: Sign,
    place: Place,
    frames: &mut Vec<Frame>,
) -> Result<Option<Mode>, OutOfMemory>
    ensures { IfOk result (λ next. state_view next frames.new.items ≡ sign_of_type type_of sign (token_views tokens.items) (plain (word_is.Operator sign) place) (stack_view frames.old.items)) }
{
    match sign {
        Sign::Equal => equal_type(alloc, tokens, frames),
        sign => Ok(Some(collected(tokens, Token::Plain(Word::Operator(sign), place))?)),
    }
}

/// The `)` in a type or behind it.
fn close_type(
    alloc: Global,
    tokens: Vec<Token>,
    place: Place,
    frames: &mut Vec<Frame>,
) -> Result<Option<Mode>, OutOfMemory>
    ensures { IfOk result (λ next. state_view next frames.new.items ≡ close_type type_of (token_views tokens.items) (plain word_is.CloseRound place) (stack_view frames.old.items)) }
{
    match popped(frames) {
        None => Ok(None),
        Some(Frame::TypeBracket) => Ok(Some(collected(
            tokens,
            Token::Plain(Word::CloseRound, place),
        )?)),
        Some(Frame::TestType(tree, test_place)) => end_test(alloc, tokens, tree, test_place),
        Some(frame) => {
            frame.discard();
            Ok(None)
        }
    }
}

/// The `]` in a type.
fn close_square_type(
    tokens: Vec<Token>,
    place: Place,
    frames: &mut Vec<Frame>,
) -> Result<Option<Mode>, OutOfMemory>
    ensures { IfOk result (λ next. state_view next frames.new.items ≡ close_square_type (token_views tokens.items) (plain word_is.CloseSquare place) (stack_view frames.old.items)) }
{
    match popped(frames) {
        None => Ok(None),
        Some(Frame::TypeBracket) => Ok(Some(collected(
            tokens,
            Token::Plain(Word::CloseSquare, place),
        )?)),
        Some(frame) => {
            frame.discard();
            Ok(None)
        }
    }
}

/// The `=` behind the type of a definition.
fn equal_type(
    alloc: Global,
    tokens: Vec<Token>,
    frames: &mut Vec<Frame>,
) -> Result<Option<Mode>, OutOfMemory>
    ensures { IfOk result (λ next. state_view next frames.new.items ≡ equal_type type_of (token_views tokens.items) (stack_view frames.old.items)) }
{
    match popped(frames) {
        None => Ok(None),
        Some(Frame::LetType(definitions, pattern, place)) => {
            end_let(alloc, tokens, definitions, pattern, place, frames)
        }
        Some(frame) => {
            frame.discard();
            Ok(None)
        }
    }
}
