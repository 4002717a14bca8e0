// What a token begins where a pattern is wanted.

ghost use Rattle.std.specs.Prelude.{◌≡◌, ◌∷◌, List, IfOk};
ghost use Rattle.abstract_syntax.specs.Expressions.{literal_pattern, no_patterns};
ghost use Rattle.type_tree.specs.LiteralView.{literal_view};
ghost use Rattle.grammar_tokens.specs.View.{token_view};
ghost use Rattle.grammar_trees.specs.Frames.{has_pattern, wants_pattern, pattern_items};
ghost use Rattle.grammar_trees.specs.Machine.{in_mode, want_pattern, want_pattern_word, want_any};
ghost use Rattle.tree_frames.specs.declared.frame.Frame.{Frame as FrameView};
ghost use Rattle.tree_frames.specs.Views.{patterns_for_view, stack_view, state_view};

use crate::cases::others;
use crate::pattern_closings::{close_curly, close_round, close_square, maps_to};
use expr_tree::{Literal, Pattern};
use grammar_tokens::Token;
use grammar_words::Word;
use std::alloc::Global;
use tree_frames::{Frame, Header, Mode, PatternsFor, TypeNameFor};
use tree_nodes::{awaiting, opened, opened_pattern};
use vdm_kinds::{OutOfMemory, Place, Sign};

/// A token where a pattern is wanted.
pub fn want_pattern(
    alloc: Global,
    token: Token,
    frames: &mut Vec<Frame>,
) -> Result<Option<Mode>, OutOfMemory>
    ensures { IfOk result (λ next. state_view next frames.new.items ≡ want_pattern (token_view token) (stack_view frames.old.items)) }
{
    match token {
        Token::Identifier(name, place) => Ok(Some(Mode::HasPattern(Pattern::bound(name, place)))),
        Token::Quote(name, place) => Ok(literal(Literal::Quote(name), place)),
        Token::Whole(number, place) => Ok(literal(Literal::Whole(number), place)),
        Token::Character(c, place) => Ok(literal(Literal::Character(c), place)),
        Token::Text(characters, place) => Ok(literal(Literal::Text(characters), place)),
        Token::MakeNamed(name, place) => {
            Ok(awaiting(Header::TypeAfter(TypeNameFor::MadePattern, name, place)))
        }
        Token::IsNamed(_name, _place) => Ok(None),
        Token::Plain(word, place) => want_pattern_word(alloc, word, place, frames),
    }
}

/// A literal was read.
fn literal(value: Literal, place: Place) -> Option<Mode>
    ensures { (frames : List FrameView) → state_view result frames ≡ in_mode (has_pattern (literal_pattern (literal_view value) place)) (stack_view frames) }
{
    Some(Mode::HasPattern(Pattern::literal(value, place)))
}

/// A word where a pattern is wanted.
fn want_pattern_word(
    alloc: Global,
    word: Word,
    place: Place,
    frames: &mut Vec<Frame>,
) -> Result<Option<Mode>, OutOfMemory>
    ensures { IfOk result (λ next. state_view next frames.new.items ≡ want_pattern_word word place (stack_view frames.old.items)) }
{
    match word {
        Word::True => Ok(literal(Literal::Bool(true), place)),
        Word::False => Ok(literal(Literal::Bool(false), place)),
        Word::Nil => Ok(literal(Literal::Nil, place)),
        Word::Operator(sign) => Ok(want_any(sign, place)),
        Word::OpenRound => opened(Frame::Matched(place), frames),
        Word::OpenCurly => listing(alloc, PatternsFor::SetLike, place, frames),
        Word::OpenSquare => listing(alloc, PatternsFor::SequenceLike, place, frames),
        Word::CloseCurly => Ok(close_curly(alloc, frames)),
        Word::CloseSquare => Ok(close_square(alloc, frames)),
        Word::CloseRound => Ok(close_round(alloc, frames)),
        Word::MapsTo => Ok(maps_to(frames)),
        Word::MakeTuple => Ok(awaiting(Header::OpensPattern(Frame::TuplePatternStart(place)))),
        Word::Others => Ok(others(frames)),
        _ => Ok(None),
    }
}

/// A sign where a pattern is wanted: `-` takes any value.
fn want_any(sign: Sign, place: Place) -> Option<Mode>
    ensures { (frames : List FrameView) → state_view result frames ≡ want_any sign place (stack_view frames) }
{
    match sign {
        Sign::Minus => Some(Mode::HasPattern(Pattern::AnyValue(place))),
        _ => None,
    }
}

/// A list of patterns is opened.
fn listing(
    alloc: Global,
    listed: PatternsFor,
    place: Place,
    frames: &mut Vec<Frame>,
) -> Result<Option<Mode>, OutOfMemory>
    ensures { IfOk result (λ next. state_view next frames.new.items ≡ in_mode wants_pattern (pattern_items (patterns_for_view listed) no_patterns place ∷ stack_view frames.old.items)) }
{
    opened_pattern(Frame::PatternItems(listed, Vec::new(alloc), place), frames)
}
