// How forms go on that begin with single tokens.

ghost use Rattle.std.specs.Prelude.{◌≡◌, List, IfOk};
ghost use Rattle.grammar_tokens.specs.View.{token_view};
ghost use Rattle.grammar_trees.specs.Machine.{awaited_word, awaited_sign, after_type_name, after_counted, enter_named, await};
ghost use Rattle.tree_frames.specs.declared.frame.Frame.{Frame as FrameView};
ghost use Rattle.tree_frames.specs.Views.{header_view, type_name_for_view, stack_view, state_view};

use crate::entering::{entered, entered_pattern, is_arrow, is_comma, is_maps_to, is_open, is_st};
use crate::names::{awaited_name, awaited_number};
use crate::nodes::read;
use expr_tree::{Expr, Pattern};
use grammar_tokens::Token;
use grammar_words::Word;
use std::alloc::Global;
use tree_frames::{Enclosed, Frame, Header, Listed, Mode, PatternsFor, TypeNameFor};
use tree_nodes::{awaiting, opened, opened_pattern};
use vdm_kinds::{Counter, Name, NameAt, OutOfMemory, Place, TypeName};

/// A token where a form goes on with a single token.
pub fn awaited(
    alloc: Global,
    header: Header,
    token: Token,
    frames: &mut Vec<Frame>,
) -> Result<Option<Mode>, OutOfMemory>
    ensures { IfOk result (λ next. state_view next frames.new.items ≡ await (header_view header) (token_view token) (stack_view frames.old.items)) }
{
    match token {
        Token::Identifier(name, place) => awaited_name(alloc, header, name, place),
        Token::Whole(number, _place) => awaited_number(alloc, header, number),
        Token::Plain(word, _place) => awaited_word(alloc, header, word, frames),
        _token => {
            header.discard();
            Ok(None)
        }
    }
}

/// A word where a form goes on.
fn awaited_word(
    alloc: Global,
    header: Header,
    word: Word,
    frames: &mut Vec<Frame>,
) -> Result<Option<Mode>, OutOfMemory>
    ensures { IfOk result (λ next. state_view next frames.new.items ≡ awaited_word (header_view header) word (stack_view frames.old.items)) }
{
    match header {
        Header::Opens(frame) => entered(is_open(word), frame, frames),
        Header::CommaThen(frame) => entered(is_comma(word), frame, frames),
        Header::StThen(frame) => entered(is_st(word), frame, frames),
        Header::ArrowThen(frame) => entered(is_arrow(word), frame, frames),
        Header::OpensPattern(frame) => entered_pattern(is_open(word), frame, frames),
        Header::TypeAfter(purpose, name, place) => {
            after_type_name(alloc, word, purpose, name, place, frames)
        }
        Header::FieldArrow(target, fields, name, name_place, place) => {
            let frame = Frame::FieldValue(target, fields, name, name_place, place);
            entered(is_maps_to(word), frame, frames)
        }
        header => awaited_sign(alloc, header, word),
    }
}

/// A word where a form goes on with nothing to be read in brackets.
fn awaited_sign(alloc: Global, header: Header, word: Word) -> Result<Option<Mode>, OutOfMemory>
    ensures { IfOk result (λ next. (frames : List FrameView) → state_view next frames ≡ awaited_sign (header_view header) word (stack_view frames)) }
{
    match header {
        Header::CounterOpens(counter, place) => match word {
            Word::OpenRound => Ok(awaiting(Header::CounterName(counter, Vec::new(alloc), place))),
            _ => Ok(None),
        },
        Header::CounterNext(counter, names, place) => {
            after_counted(alloc, word, counter, names, place)
        }
        Header::ClassOpens(place) => match word {
            Word::OpenRound => Ok(awaiting(Header::ClassName(place))),
            _ => Ok(None),
        },
        Header::BaseClassOpens(place) => match word {
            Word::OpenRound => Ok(awaiting(Header::BaseClassName(place))),
            _ => Ok(None),
        },
        Header::EmptyMapEnd(place) => match word {
            Word::CloseCurly => read(alloc, Expr::EmptyMap(place)),
            _ => Ok(None),
        },
        Header::EmptyPatternEnd(place) => match word {
            Word::CloseCurly => Ok(Some(Mode::HasPattern(Pattern::EmptyMap(place)))),
            _ => Ok(None),
        },
        header => {
            header.discard();
            Ok(None)
        }
    }
}

/// A word behind the first name of a type.
fn after_type_name(
    alloc: Global,
    word: Word,
    purpose: TypeNameFor,
    name: Name,
    place: Place,
    frames: &mut Vec<Frame>,
) -> Result<Option<Mode>, OutOfMemory>
    ensures { IfOk result (λ next. state_view next frames.new.items ≡ after_type_name word (type_name_for_view purpose) name place (stack_view frames.old.items)) }
{
    match word {
        Word::OpenRound => {
            let type_name = TypeName {
                class: None,
                name,
                name_place: place,
            };
            enter_named(alloc, purpose, type_name, place, frames)
        }
        Word::Backquote => Ok(awaiting(Header::TypeRest(purpose, name, place))),
        _ => Ok(None),
    }
}

/// The `(` behind the name of a type.
fn enter_named(
    alloc: Global,
    purpose: TypeNameFor,
    type_name: TypeName,
    place: Place,
    frames: &mut Vec<Frame>,
) -> Result<Option<Mode>, OutOfMemory>
    ensures { IfOk result (λ next. state_view next frames.new.items ≡ enter_named (type_name_for_view purpose) type_name place (stack_view frames.old.items)) }
{
    match purpose {
        TypeNameFor::Made => {
            let listed = Listed::RecordOf(type_name);
            opened(Frame::Items(listed, Vec::new(alloc), place), frames)
        }
        TypeNameFor::Asked => {
            opened(
                Frame::Enclosed(Enclosed::NamedTest(type_name), place),
                frames,
            )
        }
        TypeNameFor::MadePattern => {
            let listed = PatternsFor::RecordLike(type_name);
            opened_pattern(Frame::PatternItems(listed, Vec::new(alloc), place), frames)
        }
    }
}

/// A word behind a name that is counted.
fn after_counted(
    alloc: Global,
    word: Word,
    counter: Counter,
    names: Vec<NameAt>,
    place: Place,
) -> Result<Option<Mode>, OutOfMemory>
    ensures { IfOk result (λ next. (frames : List FrameView) → state_view next frames ≡ after_counted word counter names.items place (stack_view frames)) }
{
    match word {
        Word::Comma => Ok(awaiting(Header::CounterName(counter, names, place))),
        Word::CloseRound => read(alloc, Expr::history(counter, names, place)),
        _ => Ok(None),
    }
}
