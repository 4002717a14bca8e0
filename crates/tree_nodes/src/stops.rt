// What words end, and how strongly they pull.

ghost use Rattle.std.specs.Prelude.{◌≡◌, ◌≤◌};
ghost use Rattle.vdm_kinds.specs.Signs.{sign_level};
ghost use Rattle.grammar_words.specs.Pulls.{left_pull, right_pull, is_infix};
ghost use Rattle.grammar_trees.specs.Machine.{stop_of, stop_of_sign, word_pull, pull, joins};
ghost use Rattle.tree_frames.specs.Views.{frame_view, stop_view};

use grammar_words::Word;
use tree_frames::{Frame, Stop};
use vdm_kinds::{Grouping, Sign};

/// How strongly what goes to the right as far as it can pulls at its last expression.
const FAR: u32 = 1;

/// How strongly a postfix pulls.
const POSTFIX: u32 = 30;

/// What a word may end.
pub fn stop_of(word: Word) -> Stop
    ensures { stop_view result ≡ stop_of word }
{
    match word {
        Word::Comma => Stop::Comma,
        Word::CloseRound => Stop::CloseRound,
        Word::CloseSquare => Stop::CloseSquare,
        Word::CloseCurly => Stop::CloseCurly,
        Word::Bar => Stop::Bar,
        Word::MapsTo => Stop::MapsTo,
        Word::Ampersand => Stop::Ampersand,
        Word::Then => Stop::Then,
        Word::Elseif => Stop::Elseif,
        Word::Else => Stop::Else,
        Word::In => Stop::In,
        Word::Be => Stop::Be,
        Word::Colon => Stop::Colon,
        Word::Arrow => Stop::Arrow,
        Word::End => Stop::End,
        Word::Operator(sign) => stop_of_sign(sign),
        _ => Stop::None,
    }
}

/// What a sign may end.
fn stop_of_sign(sign: Sign) -> Stop
    ensures { stop_view result ≡ stop_of_sign sign }
{
    match sign {
        Sign::InSet => Stop::InSet,
        Sign::Equal => Stop::Equal,
        _ => Stop::None,
    }
}

/// How strongly a word pulls at the expression that stands before it.
pub fn word_pull(word: Word) -> u32
    ensures { result ≡ word_pull word }
{
    match word {
        Word::Operator(sign) => left_pull(sign),
        Word::OpenRound | Word::Dot | Word::DotNumber => POSTFIX,
        _ => 0,
    }
}

/// The level of a sign, from 1 to 14.
fn level_of(sign: Sign) -> u32
    ensures level { result ≡ sign_level sign }
    ensures most { result ≤ 14 }
{
    sign.level()
}

/// How strongly a sign pulls at what stands before it.
fn left_pull(sign: Sign) -> u32
    ensures { result ≡ left_pull sign }
{
    let level = level_of(sign);
    match sign.grouping() {
        Grouping::Left => 2 * level,
        Grouping::Right => 2 * level + 1,
        Grouping::Prefix => 0,
    }
}

/// How strongly a sign pulls at what stands behind it.
fn right_pull(sign: Sign) -> u32
    ensures { result ≡ right_pull sign }
{
    let level = level_of(sign);
    match sign.grouping() {
        Grouping::Left => 2 * level + 1,
        Grouping::Right => 2 * level,
        Grouping::Prefix => 2 * level,
    }
}

/// Whether a sign stands between two operands.
pub fn is_infix(sign: Sign) -> bool
    ensures { result ≡ is_infix sign }
{
    match sign.grouping() {
        Grouping::Left | Grouping::Right => true,
        Grouping::Prefix => false,
    }
}

/// How strongly a frame pulls at the expression that is read for it.
pub fn pull(frame: &Frame) -> u32
    ensures { result ≡ pull (frame_view frame.now) }
{
    match frame {
        Frame::OperandOf(sign, _) | Frame::RightOf(_, sign, _) => right_pull(*sign),
        Frame::Body(_, _) => FAR,
        _ => 0,
    }
}

/// Whether a word stands between patterns that are joined.
pub fn joins(word: Word) -> bool
    ensures { result ≡ joins word }
{
    match word {
        Word::Operator(Sign::Concatenation) => true,
        _ => false,
    }
}
