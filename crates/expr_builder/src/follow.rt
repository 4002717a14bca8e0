// What follows an expression.

ghost use Rattle.std.specs.Prelude.{◌≡◌, List, IfOk};
ghost use Rattle.expr_tree.specs.View.{view_of};
ghost use Rattle.grammar_tokens.specs.View.{token_view};
ghost use Rattle.grammar_words.specs.Pulls.{is_infix};
ghost use Rattle.grammar_trees.specs.Machine.{follow, follow_plain, follow_word, follow_backquote, follow_tilde, go_on, between};
ghost use Rattle.tree_frames.specs.declared.frame.Frame.{Frame as FrameView};
ghost use Rattle.tree_frames.specs.Views.{stack_view, state_view};

use crate::settling::settled;
use expr_takes::taken_by;
use expr_tree::Expr;
use grammar_tokens::Token;
use grammar_words::Word;
use std::alloc::Global;
use std::mem::replace;
use tree_frames::{Frame, Header, Listed, Mode, boxed};
use tree_nodes::{awaiting, is_infix, opened, stop_of, word_pull};
use vdm_kinds::{OutOfMemory, Place, Sign};

/// A token behind an expression.
pub fn follow(
    alloc: Global,
    tree: Box<Expr>,
    token: Token,
    frames: &mut Vec<Frame>,
) -> Result<Option<Mode>, OutOfMemory>
    ensures { IfOk result (λ next. state_view next frames.new.items ≡ follow (token_view token) (view_of tree.value) (stack_view frames.old.items)) }
{
    match token {
        Token::Plain(word, place) => follow_plain(alloc, tree, word, place, frames),
        _ => {
            Mode::Has(tree).discard();
            Ok(None)
        }
    }
}

/// A word behind an expression.
fn follow_plain(
    alloc: Global,
    tree: Box<Expr>,
    word: Word,
    place: Place,
    frames: &mut Vec<Frame>,
) -> Result<Option<Mode>, OutOfMemory>
    ensures { IfOk result (λ next. state_view next frames.new.items ≡ follow_plain word place (view_of tree.value) (stack_view frames.old.items)) }
{
    match word {
        Word::Backquote => follow_backquote(alloc, tree),
        Word::Tilde => follow_tilde(alloc, tree),
        word => follow_word(alloc, tree, word, place, frames),
    }
}

/// A word that ends the expression before it, or goes on with it: first the frames end that pull more than the word.
fn follow_word(
    alloc: Global,
    tree: Box<Expr>,
    word: Word,
    place: Place,
    frames: &mut Vec<Frame>,
) -> Result<Option<Mode>, OutOfMemory>
    ensures { IfOk result (λ next. state_view next frames.new.items ≡ follow_word word place (view_of tree.value) (stack_view frames.old.items)) }
{
    let tree = settled(alloc, word_pull(word), tree, frames)?;
    go_on(alloc, tree, word, place, frames)
}

/// What goes on behind an expression.
fn go_on(
    alloc: Global,
    tree: Box<Expr>,
    word: Word,
    place: Place,
    frames: &mut Vec<Frame>,
) -> Result<Option<Mode>, OutOfMemory>
    ensures { IfOk result (λ next. state_view next frames.new.items ≡ go_on word place (view_of tree.value) (stack_view frames.old.items)) }
{
    match word {
        Word::Operator(sign) => between(alloc, tree, sign, place, frames),
        Word::OpenRound => {
            let listed = Listed::AppliedTo(tree);
            opened(Frame::Items(listed, Vec::new(alloc), place), frames)
        }
        Word::Dot => Ok(awaiting(Header::MemberOf(tree, place))),
        Word::DotNumber => Ok(awaiting(Header::PartOf(tree, place))),
        word => taken_by(alloc, tree, stop_of(word), frames),
    }
}

/// A sign behind an expression.
fn between(
    alloc: Global,
    tree: Box<Expr>,
    sign: Sign,
    place: Place,
    frames: &mut Vec<Frame>,
) -> Result<Option<Mode>, OutOfMemory>
    ensures { IfOk result (λ next. state_view next frames.new.items ≡ between (is_infix sign) (view_of tree.value) sign place (stack_view frames.old.items)) }
{
    if is_infix(sign) {
        opened(Frame::RightOf(tree, sign, place), frames)
    } else {
        Mode::Has(tree).discard();
        Ok(None)
    }
}

/// A backquote behind an expression: a name or a member goes on.
fn follow_backquote(alloc: Global, tree: Box<Expr>) -> Result<Option<Mode>, OutOfMemory>
    ensures { IfOk result (λ next. (frames : List FrameView) → state_view next frames ≡ follow_backquote (view_of tree.value) (stack_view frames)) }
{
    let mut tree = tree;
    match tree.as_mut() {
        Expr::Name(name, place) => Ok(awaiting(Header::QualifiedRest(*name, *place))),
        Expr::Select(target, name, name_place, place) => {
            // What stands before the `.` is taken out of the tree, which goes.
            let target = replace(target, boxed(alloc, Expr::Time(*place))?);
            Ok(awaiting(Header::MemberRest(target, *name, *name_place, *place)))
        }
        _ => Ok(None),
    }
}

/// A `~` behind an expression: the value of a name before the call.
fn follow_tilde(alloc: Global, tree: Box<Expr>) -> Result<Option<Mode>, OutOfMemory>
    ensures { IfOk result (λ next. (frames : List FrameView) → state_view next frames ≡ follow_tilde (view_of tree.value) (stack_view frames)) }
{
    match tree.as_ref() {
        Expr::Name(name, place) => Ok(Some(Mode::Has(boxed(alloc, Expr::old(*name, *place))?))),
        _ => Ok(None),
    }
}
