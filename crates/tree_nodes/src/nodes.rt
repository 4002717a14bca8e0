// Trees that frames become.

ghost use Rattle.std.specs.Prelude.{◌≡◌, IfOk};
ghost use Rattle.expr_tree.specs.View.{view_of, views_of, expr_trees, pattern_view, pattern_views, pattern_trees};
ghost use Rattle.grammar_trees.specs.Machine.{enclose, whole_list, whole_patterns, compare, with_body, completed};
ghost use Rattle.tree_frames.specs.Views.{enclosed_view, listed_view, patterns_for_view, compared_view, body_view, frame_view};

use expr_tree::{Expr, Pattern};
use std::alloc::Global;
use tree_frames::{Body, Compared, Enclosed, Frame, Listed, PatternsFor, boxed};
use vdm_kinds::{OutOfMemory, Place};

/// An expression in round brackets.
pub fn enclose(
    alloc: Global,
    purpose: Enclosed,
    inner: Box<Expr>,
    place: Place,
) -> Result<Box<Expr>, OutOfMemory>
    ensures { IfOk result (λ tree. view_of tree.value ≡ enclose (enclosed_view purpose) (view_of inner.value) place) }
{
    boxed(alloc, enclosed(purpose, inner, place))
}

/// What an expression in round brackets is.
fn enclosed(purpose: Enclosed, inner: Box<Expr>, place: Place) -> Expr
    ensures { view_of result ≡ enclose (enclosed_view purpose) (view_of inner.value) place }
{
    match purpose {
        Enclosed::Bracket => Expr::bracketed(inner, place),
        Enclosed::TokenOf => Expr::make_token(inner, place),
        Enclosed::NamedTest(type_name) => Expr::is_of_named(type_name, inner, place),
        Enclosed::BasicTest(basic) => Expr::is_of_basic(basic, inner, place),
        Enclosed::ClassTest(class, class_place) => {
            Expr::is_of_class(class, class_place, inner, place)
        }
        Enclosed::BaseClassTest(class, class_place) => {
            Expr::is_of_base_class(class, class_place, inner, place)
        }
    }
}

/// A list with its items.
pub fn whole_list(listed: Listed, items: Vec<Expr>, place: Place) -> Expr
    ensures { view_of result ≡ whole_list (listed_view listed) (expr_trees (views_of items.items)) place }
{
    match listed {
        Listed::SetOf => Expr::set_enumeration(items, place),
        Listed::SequenceOf => Expr::sequence_enumeration(items, place),
        Listed::TupleOf => Expr::make_tuple(items, place),
        Listed::RecordOf(type_name) => Expr::make_record(type_name, items, place),
        Listed::NewOf(class, class_place) => Expr::create(class, class_place, items, place),
        Listed::AppliedTo(head) => Expr::apply(head, items, place),
    }
}

/// A list of patterns with its items.
pub fn whole_patterns(listed: PatternsFor, items: Vec<Pattern>, place: Place) -> Pattern
    ensures { pattern_view result ≡ whole_patterns (patterns_for_view listed) (pattern_trees (pattern_views items.items)) place }
{
    match listed {
        PatternsFor::SetLike => Pattern::set(items, place),
        PatternsFor::SequenceLike => Pattern::sequence(items, place),
        PatternsFor::TupleLike => Pattern::tuple(items, place),
        PatternsFor::RecordLike(type_name) => Pattern::record(type_name, items, place),
    }
}

/// Two objects whose classes are compared.
pub fn compare(
    alloc: Global,
    compared: Compared,
    left: Box<Expr>,
    right: Box<Expr>,
    place: Place,
) -> Result<Box<Expr>, OutOfMemory>
    ensures { IfOk result (λ tree. view_of tree.value ≡ compare (compared_view compared) (view_of left.value) (view_of right.value) place) }
{
    match compared {
        Compared::Classes => boxed(alloc, Expr::same_class(left, right, place)),
        Compared::BaseClasses => boxed(alloc, Expr::same_base_class(left, right, place)),
    }
}

/// What goes to the right as far as it can, with its last expression.
pub fn with_body(body: Body, last: Box<Expr>, place: Place) -> Expr
    ensures { view_of result ≡ with_body (body_view body) (view_of last.value) place }
{
    match body {
        Body::All(binds) => Expr::for_all(binds, last, place),
        Body::Some(binds) => Expr::exists(binds, last, place),
        Body::One(bind) => Expr::exists_one(bind, last, place),
        Body::The(bind) => Expr::iota(bind, last, place),
        Body::Let(definitions) => Expr::let_in(definitions, last, place),
        Body::Such(bind, such) => Expr::let_be(bind, such, last, place),
        Body::Def(pattern, value) => Expr::def_in(pattern, value, last, place),
        Body::Else(test, value, elseifs) => Expr::if_else(test, value, elseifs, last, place),
    }
}

/// The tree of a frame that ends with the expression.
pub fn completed(alloc: Global, frame: Frame, last: Box<Expr>) -> Result<Box<Expr>, OutOfMemory>
    ensures { IfOk result (λ tree. view_of tree.value ≡ completed (frame_view frame) (view_of last.value)) }
{
    match frame {
        Frame::OperandOf(sign, place) => boxed(alloc, Expr::prefix(sign, last, place)),
        Frame::RightOf(left, sign, place) => boxed(alloc, Expr::infix(left, sign, last, place)),
        Frame::Body(body, place) => boxed(alloc, with_body(body, last, place)),
        frame => {
            frame.discard();
            Ok(last)
        }
    }
}
