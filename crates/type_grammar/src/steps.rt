// What a token does.

ghost use Rattle.std.specs.Prelude.{◌≡◌, IfOk};
ghost use Rattle.type_tree.specs.TypeView.{type_view};
ghost use Rattle.grammar_tokens.specs.View.{token_view};
ghost use Rattle.std.specs.Prelude.{◌∷◌};
ghost use Rattle.grammar_words.specs.Tokens.{plain};
ghost use Rattle.type_reading.specs.Reading.{state, wants, has_settled, settled, wanted, next_factor, next_alternative, close_round, close_square, value_next, behind, of_wanted, behind_name, behind_backquote, step};
ghost use Rattle.type_grammar.specs.Views.{collection_view, frame_view, mode_view, stack_view, state_view};

use crate::ends::{all_closed, product_closed, settled};
use crate::frame::{Bracket, Collection, Frame, Mapping};
use crate::mode::Mode;
use crate::nodes::{enclosed_type, name_alone, name_of_class, quote_type};
use crate::stack::{alternatives, factors, popped, pushed};
use grammar_tokens::Token;
use grammar_words::Word;
use std::alloc::Global;
use type_tree::TypeExpr;
use vdm_kinds::{Name, OutOfMemory, Place, Sign};

/// What comes behind a token; none where no type goes on with it.
pub fn step(
    alloc: Global,
    mode: Mode,
    frames: &mut Vec<Frame>,
    token: &Token,
) -> Result<Option<Mode>, OutOfMemory>
    ensures { IfOk result (λ next. state_view next frames.new.items ≡ step (state (mode_view mode) (stack_view frames.old.items)) (token_view token.now)) }
{
    match mode {
        Mode::Wants => wanted(alloc, frames, token),
        Mode::Has(tree) => behind(alloc, tree, frames, token),
        Mode::WantsOf(collection, place) => of_wanted(collection, place, frames, token),
        Mode::Named(name, place) => behind_name(alloc, name, place, frames, token),
        Mode::Qualified(class, place) => behind_backquote(alloc, class, place, frames, token),
    }
}

/// A single type was read, and ends what it is the last part of.
fn has(alloc: Global, tree: TypeExpr, frames: &mut Vec<Frame>) -> Result<Option<Mode>, OutOfMemory>
    ensures { IfOk result (λ next. state_view next frames.new.items ≡ has_settled (settled (type_view tree) (stack_view frames.old.items))) }
{
    let tree = settled(alloc, tree, frames)?;
    Ok(Some(Mode::Has(tree)))
}

/// A frame is opened, and a single type is wanted.
fn opened(frame: Frame, frames: &mut Vec<Frame>) -> Result<Option<Mode>, OutOfMemory>
    ensures { IfOk result (λ next. state_view next frames.new.items ≡ state wants (frame_view frame ∷ stack_view frames.old.items)) }
{
    pushed(frames, frame)?;
    Ok(Some(Mode::Wants))
}

/// A token where a single type is wanted.
fn wanted(
    alloc: Global,
    frames: &mut Vec<Frame>,
    token: &Token,
) -> Result<Option<Mode>, OutOfMemory>
    ensures { IfOk result (λ next. state_view next frames.new.items ≡ wanted (stack_view frames.old.items) (token_view token.now)) }
{
    match token {
        Token::Identifier(name, place) => Ok(Some(Mode::Named(*name, *place))),
        Token::Quote(name, place) => has(alloc, quote_type(*name, *place), frames),
        Token::Plain(word, place) => wanted_word(alloc, frames, *word, *place),
        _ => Ok(None),
    }
}

/// A word where a single type is wanted.
fn wanted_word(
    alloc: Global,
    frames: &mut Vec<Frame>,
    word: Word,
    place: Place,
) -> Result<Option<Mode>, OutOfMemory>
    ensures { IfOk result (λ next. state_view next frames.new.items ≡ wanted (stack_view frames.old.items) (plain word place)) }
{
    match word {
        Word::Basic(basic) => has(alloc, TypeExpr::basic(basic, place), frames),
        Word::Set => Ok(Some(Mode::WantsOf(Collection::Set, place))),
        Word::Seq => Ok(Some(Mode::WantsOf(Collection::Sequence, place))),
        Word::Seq1 => Ok(Some(Mode::WantsOf(Collection::FilledSequence, place))),
        Word::Map => opened(Frame::KeyOf(Mapping::Any, place), frames),
        Word::InMap => opened(Frame::KeyOf(Mapping::Injective, place), frames),
        Word::OpenRound => opened(Frame::Enclosed(Bracket::Round, place), frames),
        Word::OpenSquare => opened(Frame::Enclosed(Bracket::Square, place), frames),
        _ => Ok(None),
    }
}

/// A token behind a single type.
fn behind(
    alloc: Global,
    tree: TypeExpr,
    frames: &mut Vec<Frame>,
    token: &Token,
) -> Result<Option<Mode>, OutOfMemory>
    ensures { IfOk result (λ next. state_view next frames.new.items ≡ behind (type_view tree) (stack_view frames.old.items) (token_view token.now)) }
{
    match token {
        Token::Plain(Word::Operator(Sign::Times), _) => next_factor(alloc, tree, frames),
        Token::Plain(Word::Bar, _) => {
            let tree = product_closed(tree, frames)?;
            next_alternative(alloc, tree, frames)
        }
        Token::Plain(Word::CloseRound, _) => {
            let tree = all_closed(tree, frames)?;
            close_round(alloc, tree, frames)
        }
        Token::Plain(Word::CloseSquare, _) => {
            let tree = all_closed(tree, frames)?;
            close_square(alloc, tree, frames)
        }
        Token::Plain(Word::To, _) => {
            let tree = all_closed(tree, frames)?;
            value_next(alloc, tree, frames)
        }
        _ => Ok(None),
    }
}

/// A further factor is wanted.
fn next_factor(
    alloc: Global,
    tree: TypeExpr,
    frames: &mut Vec<Frame>,
) -> Result<Option<Mode>, OutOfMemory>
    ensures { IfOk result (λ next. state_view next frames.new.items ≡ next_factor (type_view tree) (stack_view frames.old.items)) }
{
    let mut trees = match factors(frames) {
        Some(trees) => trees,
        None => Vec::new(alloc),
    };
    trees.push(tree)?;
    opened(Frame::Factors(trees), frames)
}

/// A further alternative is wanted.
fn next_alternative(
    alloc: Global,
    tree: TypeExpr,
    frames: &mut Vec<Frame>,
) -> Result<Option<Mode>, OutOfMemory>
    ensures { IfOk result (λ next. state_view next frames.new.items ≡ next_alternative (type_view tree) (stack_view frames.old.items)) }
{
    let mut trees = match alternatives(frames) {
        Some(trees) => trees,
        None => Vec::new(alloc),
    };
    trees.push(tree)?;
    opened(Frame::Alternatives(trees), frames)
}

/// A round bracket closes.
fn close_round(
    alloc: Global,
    tree: TypeExpr,
    frames: &mut Vec<Frame>,
) -> Result<Option<Mode>, OutOfMemory>
    ensures { IfOk result (λ next. state_view next frames.new.items ≡ close_round (type_view tree) (stack_view frames.old.items)) }
{
    match popped(frames) {
        Some(Frame::Enclosed(Bracket::Round, place)) => {
            let tree = enclosed_type(alloc, Bracket::Round, tree, place)?;
            has(alloc, tree, frames)
        }
        _ => Ok(None),
    }
}

/// A square bracket closes.
fn close_square(
    alloc: Global,
    tree: TypeExpr,
    frames: &mut Vec<Frame>,
) -> Result<Option<Mode>, OutOfMemory>
    ensures { IfOk result (λ next. state_view next frames.new.items ≡ close_square (type_view tree) (stack_view frames.old.items)) }
{
    match popped(frames) {
        Some(Frame::Enclosed(Bracket::Square, place)) => {
            let tree = enclosed_type(alloc, Bracket::Square, tree, place)?;
            has(alloc, tree, frames)
        }
        _ => Ok(None),
    }
}

/// A key ends, and a value is wanted.
fn value_next(
    alloc: Global,
    tree: TypeExpr,
    frames: &mut Vec<Frame>,
) -> Result<Option<Mode>, OutOfMemory>
    ensures { IfOk result (λ next. state_view next frames.new.items ≡ value_next (type_view tree) (stack_view frames.old.items)) }
{
    match popped(frames) {
        Some(Frame::KeyOf(mapping, place)) => {
            let key = Box::new(alloc, tree)?;
            opened(Frame::ValueOf(mapping, key, place), frames)
        }
        _ => Ok(None),
    }
}

/// A token where `of` is wanted.
fn of_wanted(
    collection: Collection,
    place: Place,
    frames: &mut Vec<Frame>,
    token: &Token,
) -> Result<Option<Mode>, OutOfMemory>
    ensures { IfOk result (λ next. state_view next frames.new.items ≡ of_wanted (collection_view collection) place (stack_view frames.old.items) (token_view token.now)) }
{
    match token {
        Token::Plain(Word::Of, _) => opened(Frame::Element(collection, place), frames),
        _ => Ok(None),
    }
}

/// A token behind a name.
fn behind_name(
    alloc: Global,
    name: Name,
    place: Place,
    frames: &mut Vec<Frame>,
    token: &Token,
) -> Result<Option<Mode>, OutOfMemory>
    ensures { IfOk result (λ next. state_view next frames.new.items ≡ behind_name name place (stack_view frames.old.items) (token_view token.now)) }
{
    match token {
        Token::Plain(Word::Backquote, _) => Ok(Some(Mode::Qualified(name, place))),
        _ => {
            let tree = settled(alloc, name_alone(name, place), frames)?;
            behind(alloc, tree, frames, token)
        }
    }
}

/// A token behind a class and a backquote.
fn behind_backquote(
    alloc: Global,
    class: Name,
    place: Place,
    frames: &mut Vec<Frame>,
    token: &Token,
) -> Result<Option<Mode>, OutOfMemory>
    ensures { IfOk result (λ next. state_view next frames.new.items ≡ behind_backquote class place (stack_view frames.old.items) (token_view token.now)) }
{
    match token {
        Token::Identifier(name, name_place) => {
            has(
                alloc,
                name_of_class(class, place, *name, *name_place),
                frames,
            )
        }
        _ => Ok(None),
    }
}
