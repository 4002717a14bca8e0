// The list that is innermost, by the items that it has so far.

ghost use Rattle.std.specs.Prelude.{◌≡◌, ◌∷◌, IfOk, MatchOption};
ghost use Rattle.abstract_syntax.specs.Expressions.{one_expr, no_exprs, no_patterns};
ghost use Rattle.expr_tree.specs.View.{view_of, expr_trees, views_of, pattern_trees, pattern_views};
ghost use Rattle.grammar_trees.specs.Frames.{items as expr_items, pattern_items};
ghost use Rattle.tree_nodes.specs.Emptiness.{is_empty_patterns, IsNotOnly};
ghost use Rattle.expr_starts.specs.Innermost.{NoList, NoEmptyList, NoListOfOne, NoEmptyPatterns};
ghost use Rattle.tree_frames.specs.Views.{listed_view, patterns_for_view, stack_view};

use expr_tree::{Expr, Pattern};
use std::alloc::Global;
use tree_frames::{Frame, Listed, PatternsFor, boxed, popped};
use tree_nodes::is_empty;
use vdm_kinds::{OutOfMemory, Place};

/// A list of expressions that an item is wanted for.
#[derive(Drop)]
struct OpenList {
    listed: Listed,
    items: Vec<Expr>,
    place: Place,
}

/// A list of expressions without an item.
#[derive(Drop)]
pub struct EmptyList {
    pub listed: Listed,
    pub place: Place,
}

/// A list of expressions with one item.
#[derive(Drop)]
pub struct ListOfOne {
    pub listed: Listed,
    pub first: Box<Expr>,
    pub place: Place,
}

/// A list of patterns without a pattern.
#[derive(Clone, Copy)]
pub struct EmptyPatterns {
    pub listed: PatternsFor,
    pub place: Place,
}

/// The list that is innermost, which is taken off.
fn open_list(frames: &mut Vec<Frame>) -> Option<OpenList>
    ensures { MatchOption result (NoList (stack_view frames.old.items)) (λ list. stack_view frames.old.items ≡ expr_items (listed_view list.listed) (expr_trees (views_of list.items.items)) list.place ∷ stack_view frames.new.items) }
{
    match popped(frames) {
        Some(Frame::Items(listed, items, place)) => Some(OpenList {
            listed,
            items,
            place,
        }),
        Some(frame) => {
            frame.discard();
            None
        }
        None => None,
    }
}

/// The list without an item that is innermost, which is taken off.
pub fn empty_list(frames: &mut Vec<Frame>) -> Option<EmptyList>
    ensures { MatchOption result (NoEmptyList (stack_view frames.old.items)) (λ list. stack_view frames.old.items ≡ expr_items (listed_view list.listed) no_exprs list.place ∷ stack_view frames.new.items) }
{
    let OpenList {
        listed,
        items,
        place,
    } = open_list(frames)?;
    if is_empty(&items) {
        Some(EmptyList { listed, place })
    } else {
        None
    }
}

/// The list with one item that is innermost, which is taken off.
pub fn list_of_one(alloc: Global, frames: &mut Vec<Frame>) -> Result<Option<ListOfOne>, OutOfMemory>
    ensures { IfOk result (λ found. MatchOption found (NoListOfOne (stack_view frames.old.items)) (λ list. stack_view frames.old.items ≡ expr_items (listed_view list.listed) (one_expr (view_of list.first.value) no_exprs) list.place ∷ stack_view frames.new.items)) }
{
    let Some(
        OpenList {
            listed,
            items,
            place,
        },
    ) = open_list(frames)
    else {
        return Ok(None);
    };
    match only(alloc, items)? {
        Some(first) => Ok(Some(ListOfOne {
            listed,
            first,
            place,
        })),
        None => Ok(None),
    }
}

/// The only expression, where there is just one.
fn only(alloc: Global, items: Vec<Expr>) -> Result<Option<Box<Expr>>, OutOfMemory>
    ensures { IfOk result (λ only. MatchOption only (IsNotOnly (expr_trees (views_of items.items))) (λ first. expr_trees (views_of items.items) ≡ one_expr (view_of first.value) no_exprs)) }
{
    let mut items = items;
    let Some(last) = items.pop() else {
        return Ok(None);
    };
    let last = boxed(alloc, last)?;
    if is_empty(&items) {
        Ok(Some(last))
    } else {
        Ok(None)
    }
}

/// The list without a pattern that is innermost, which is taken off.
pub fn empty_patterns(frames: &mut Vec<Frame>) -> Option<EmptyPatterns>
    ensures { MatchOption result (NoEmptyPatterns (stack_view frames.old.items)) (λ list. stack_view frames.old.items ≡ pattern_items (patterns_for_view list.listed) no_patterns list.place ∷ stack_view frames.new.items) }
{
    match popped(frames) {
        Some(Frame::PatternItems(listed, items, place)) => {
            if has_no_pattern(&items) {
                Some(EmptyPatterns { listed, place })
            } else {
                None
            }
        }
        Some(frame) => {
            frame.discard();
            None
        }
        None => None,
    }
}

/// Whether there is no pattern.
pub fn has_no_pattern(items: &[Pattern]) -> bool
    ensures { result ≡ is_empty_patterns (pattern_trees (pattern_views items.now)) }
{
    match items {
        [] => true,
        _ => false,
    }
}
