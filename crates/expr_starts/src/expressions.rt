// What a token begins where an expression is wanted.

ghost use Rattle.std.specs.Prelude.{◌≡◌, List, IfOk};
ghost use Rattle.abstract_syntax.specs.Expressions.{literal};
ghost use Rattle.type_tree.specs.LiteralView.{literal_view};
ghost use Rattle.grammar_trees.specs.Frames.{has};
ghost use Rattle.grammar_tokens.specs.View.{token_view};
ghost use Rattle.grammar_trees.specs.Machine.{in_mode, as_prefix, want_operand, want_word, want};
ghost use Rattle.tree_frames.specs.declared.frame.Frame.{Frame as FrameView};
ghost use Rattle.tree_frames.specs.Views.{stack_view, state_view};

use crate::closings::{close_curly, close_round, close_square, dots, maps_to};
use crate::forms::want_form;
use crate::nodes::read;
use expr_tree::{Expr, Literal};
use grammar_tokens::Token;
use grammar_words::Word;
use std::alloc::Global;
use tree_frames::{Enclosed, Frame, Header, Listed, Mode, TypeNameFor};
use tree_nodes::{awaiting, opened};
use vdm_kinds::{Grouping, OutOfMemory, Place, Sign};

/// A token where an expression is wanted.
pub fn want(
    alloc: Global,
    token: Token,
    frames: &mut Vec<Frame>,
) -> Result<Option<Mode>, OutOfMemory>
    ensures { IfOk result (λ next. state_view next frames.new.items ≡ want (token_view token) (stack_view frames.old.items)) }
{
    match token {
        Token::Identifier(name, place) => read(alloc, Expr::name(name, place)),
        Token::Quote(name, place) => literal(alloc, Literal::Quote(name), place),
        Token::Whole(number, place) => literal(alloc, Literal::Whole(number), place),
        Token::Character(c, place) => literal(alloc, Literal::Character(c), place),
        Token::Text(characters, place) => literal(alloc, Literal::Text(characters), place),
        Token::MakeNamed(name, place) => {
            Ok(awaiting(Header::TypeAfter(TypeNameFor::Made, name, place)))
        }
        Token::IsNamed(name, place) => {
            Ok(awaiting(Header::TypeAfter(TypeNameFor::Asked, name, place)))
        }
        Token::Plain(word, place) => want_word(alloc, word, place, frames),
    }
}

/// A literal was read.
fn literal(alloc: Global, value: Literal, place: Place) -> Result<Option<Mode>, OutOfMemory>
    ensures { IfOk result (λ next. (frames : List FrameView) → state_view next frames ≡ in_mode (has (literal (literal_view value) place)) (stack_view frames)) }
{
    read(alloc, Expr::literal(value, place))
}

/// A word where an expression is wanted.
fn want_word(
    alloc: Global,
    word: Word,
    place: Place,
    frames: &mut Vec<Frame>,
) -> Result<Option<Mode>, OutOfMemory>
    ensures { IfOk result (λ next. state_view next frames.new.items ≡ want_word word place (stack_view frames.old.items)) }
{
    match word {
        Word::True => literal(alloc, Literal::Bool(true), place),
        Word::False => literal(alloc, Literal::Bool(false), place),
        Word::Nil => literal(alloc, Literal::Nil, place),
        Word::SelfWord => read(alloc, Expr::SelfObject(place)),
        Word::Time => read(alloc, Expr::Time(place)),
        Word::Undefined => read(alloc, Expr::Undefined(place)),
        Word::Result => read(alloc, Expr::Result(place)),
        Word::Operator(sign) => want_operand(as_prefix(sign), place, frames),
        Word::OpenRound => opened(Frame::Enclosed(Enclosed::Bracket, place), frames),
        Word::OpenCurly => opened(Frame::Items(Listed::SetOf, Vec::new(alloc), place), frames),
        Word::OpenSquare => {
            opened(
                Frame::Items(Listed::SequenceOf, Vec::new(alloc), place),
                frames,
            )
        }
        Word::CloseCurly => close_curly(alloc, frames),
        Word::CloseSquare => close_square(alloc, frames),
        Word::CloseRound => close_round(alloc, frames),
        Word::MapsTo => Ok(maps_to(frames)),
        Word::Dots => dots(alloc, frames),
        _ => want_form(alloc, word, place, frames),
    }
}

/// The operator that a sign is before its operand.
fn as_prefix(sign: Sign) -> Option<Sign>
    ensures { result ≡ as_prefix sign }
{
    match sign {
        Sign::Plus => Some(Sign::Positive),
        Sign::Minus => Some(Sign::Negative),
        Sign::Positive | Sign::Negative => None,
        _ => match sign.grouping() {
            Grouping::Prefix => Some(sign),
            Grouping::Left | Grouping::Right => None,
        },
    }
}

/// An operator before its operand.
fn want_operand(
    sign: Option<Sign>,
    place: Place,
    frames: &mut Vec<Frame>,
) -> Result<Option<Mode>, OutOfMemory>
    ensures { IfOk result (λ next. state_view next frames.new.items ≡ want_operand sign place (stack_view frames.old.items)) }
{
    match sign {
        None => Ok(None),
        Some(sign) => opened(Frame::OperandOf(sign, place), frames),
    }
}
