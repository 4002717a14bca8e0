// What a word begins that is written before its parts.

ghost use Rattle.std.specs.Prelude.{◌≡◌, List, IfOk};
ghost use Rattle.grammar_trees.specs.Frames.{awaits, opens, enclosed, left_class};
ghost use Rattle.grammar_trees.specs.Machine.{in_mode, want_form, want_far};
ghost use Rattle.tree_frames.specs.declared.frame.Frame.{Frame as FrameView};
ghost use Rattle.tree_frames.specs.Views.{enclosed_view, compared_view, stack_view, state_view};

use grammar_words::Word;
use std::alloc::Global;
use tree_frames::{BindsFor, Compared, Enclosed, Frame, Header, Mode};
use tree_nodes::{awaiting, binding, opened, opened_pattern};
use vdm_kinds::{OutOfMemory, Place};

/// A form that begins with a word and a bracket.
pub fn want_form(
    alloc: Global,
    word: Word,
    place: Place,
    frames: &mut Vec<Frame>,
) -> Result<Option<Mode>, OutOfMemory>
    ensures { IfOk result (λ next. state_view next frames.new.items ≡ want_form word place (stack_view frames.old.items)) }
{
    match word {
        Word::MakeTuple => Ok(awaiting(Header::Opens(Frame::TupleStart(place)))),
        Word::MakeToken => Ok(enclosing(Enclosed::TokenOf, place)),
        Word::IsType => Ok(awaiting(Header::Opens(Frame::Tested(place)))),
        Word::IsBasic(basic) => Ok(enclosing(Enclosed::BasicTest(basic), place)),
        Word::Modify => Ok(awaiting(Header::Opens(Frame::Modified(place)))),
        Word::New => Ok(awaiting(Header::NewName(place))),
        Word::IsOfClass => Ok(awaiting(Header::ClassOpens(place))),
        Word::IsOfBaseClass => Ok(awaiting(Header::BaseClassOpens(place))),
        Word::SameClass => Ok(comparing(Compared::Classes, place)),
        Word::SameBaseClass => Ok(comparing(Compared::BaseClasses, place)),
        Word::Counter(counter) => Ok(awaiting(Header::CounterOpens(counter, place))),
        _ => want_far(alloc, word, place, frames),
    }
}

/// An expression in round brackets is wanted.
fn enclosing(purpose: Enclosed, place: Place) -> Option<Mode>
    ensures { (frames : List FrameView) → state_view result frames ≡ in_mode (awaits (opens (enclosed (enclosed_view purpose) place))) (stack_view frames) }
{
    awaiting(Header::Opens(Frame::Enclosed(purpose, place)))
}

/// Two objects are wanted.
fn comparing(compared: Compared, place: Place) -> Option<Mode>
    ensures { (frames : List FrameView) → state_view result frames ≡ in_mode (awaits (opens (left_class (compared_view compared) place))) (stack_view frames) }
{
    awaiting(Header::Opens(Frame::LeftClass(compared, place)))
}

/// A form that goes on to the right as far as it can, or `cases`.
fn want_far(
    alloc: Global,
    word: Word,
    place: Place,
    frames: &mut Vec<Frame>,
) -> Result<Option<Mode>, OutOfMemory>
    ensures { IfOk result (λ next. state_view next frames.new.items ≡ want_far word place (stack_view frames.old.items)) }
{
    match word {
        Word::Let => opened_pattern(Frame::LetStart(place), frames),
        Word::Def => opened_pattern(Frame::DefPattern(place), frames),
        Word::If => opened(Frame::IfTest(place), frames),
        Word::Cases => opened(Frame::Subject(place), frames),
        Word::Forall => binding(alloc, BindsFor::AllOf, place, frames),
        Word::Exists => binding(alloc, BindsFor::SomeOf, place, frames),
        Word::ExistsOne => binding(alloc, BindsFor::OneOf, place, frames),
        Word::Iota => binding(alloc, BindsFor::TheOne, place, frames),
        _ => Ok(None),
    }
}
