// Lists, ranges and maps, behind an expression.

ghost use Rattle.std.specs.Prelude.{◌≡◌, List, IfOk, map};
ghost use Rattle.abstract_syntax.specs.Expressions.{no_exprs, one_expr};
ghost use Rattle.expr_tree.specs.View.{view_of, views_of, expr_trees, maplet_trees, maplet_view, maybe_view};
ghost use Rattle.expr_parts.specs.At.{at};
ghost use Rattle.grammar_trees.specs.Frames.{State, has, set_of, sequence_of};
ghost use Rattle.grammar_trees.specs.Lists.{and_expr};
ghost use Rattle.grammar_trees.specs.Machine.{bar, in_mode, closes_list, whole_list, behind_first, behind_item, end_range, behind_maplet, end_condition};
ghost use Rattle.grammar_trees.specs.Machine.{Stop as StopView};
ghost use Rattle.tree_nodes.specs.Emptiness.{is_empty_maplets};
ghost use Rattle.tree_frames.specs.declared.frame.Frame.{Frame as FrameView};
ghost use Rattle.tree_frames.specs.Views.{listed_view, ranged_view, conditioned_view, stop_view, stack_view, state_view};

use crate::wanted::next_at;
use expr_tree::{Expr, Maplet};
use std::alloc::Global;
use tree_frames::{
    BindsFor, Conditioned, Frame, Listed, Mode, Ranged, Stop, boxed, with_expr, with_maplet,
};
use tree_nodes::{binding, is_empty, opened, opened_pattern, whole_list};
use vdm_kinds::{OutOfMemory, Place};

/// Behind an item of a list.
pub fn behind_item(
    alloc: Global,
    listed: Listed,
    items: Vec<Expr>,
    tree: Box<Expr>,
    place: Place,
    stop: Stop,
    frames: &mut Vec<Frame>,
) -> Result<Option<Mode>, OutOfMemory>
    ensures { IfOk result (λ next. state_view next frames.new.items ≡ behind_item (listed_view listed) (expr_trees (views_of items.items)) (view_of tree.value) place (stop_view stop) (stack_view frames.old.items)) }
{
    match stop {
        Stop::Comma => {
            let items = with_expr(items, tree)?;
            opened(Frame::Items(listed, items, place), frames)
        }
        stop => behind_first(alloc, listed, items, tree, place, stop, frames),
    }
}

/// Behind an item of a list, which may be the first of a comprehension or of a map.
fn behind_first(
    alloc: Global,
    listed: Listed,
    items: Vec<Expr>,
    tree: Box<Expr>,
    place: Place,
    stop: Stop,
    frames: &mut Vec<Frame>,
) -> Result<Option<Mode>, OutOfMemory>
    ensures { IfOk result (λ next. state_view next frames.new.items ≡ behind_first (listed_view listed) (expr_trees (views_of items.items)) (view_of tree.value) place (stop_view stop) (stack_view frames.old.items)) }
{
    if is_empty(&items) {
        behind_only(alloc, listed, tree, place, stop, frames)
    } else {
        closed_with(alloc, listed, items, tree, place, stop)
    }
}

/// Behind the first item of a list.
fn behind_only(
    alloc: Global,
    listed: Listed,
    tree: Box<Expr>,
    place: Place,
    stop: Stop,
    frames: &mut Vec<Frame>,
) -> Result<Option<Mode>, OutOfMemory>
    ensures { IfOk result (λ next. state_view next frames.new.items ≡ behind_first (listed_view listed) no_exprs (view_of tree.value) place (stop_view stop) (stack_view frames.old.items)) }
{
    match listed {
        Listed::SetOf => behind_element(alloc, tree, place, stop, frames),
        Listed::SequenceOf => behind_member(alloc, tree, place, stop, frames),
        listed => closed_item(alloc, listed, tree, place, stop),
    }
}

/// Behind the first item of a set: a comprehension, a map, or the end.
fn behind_element(
    alloc: Global,
    tree: Box<Expr>,
    place: Place,
    stop: Stop,
    frames: &mut Vec<Frame>,
) -> Result<Option<Mode>, OutOfMemory>
    ensures { IfOk result (λ next. state_view next frames.new.items ≡ behind_first set_of no_exprs (view_of tree.value) place (stop_view stop) (stack_view frames.old.items)) }
{
    match stop {
        Stop::Bar => binding(alloc, BindsFor::SetEach(tree), place, frames),
        Stop::MapsTo => opened(Frame::MapValue(Vec::new(alloc), tree, place), frames),
        stop => closed_item(alloc, Listed::SetOf, tree, place, stop),
    }
}

/// Behind the first item of a sequence: a comprehension, or the end.
fn behind_member(
    alloc: Global,
    tree: Box<Expr>,
    place: Place,
    stop: Stop,
    frames: &mut Vec<Frame>,
) -> Result<Option<Mode>, OutOfMemory>
    ensures { IfOk result (λ next. state_view next frames.new.items ≡ behind_first sequence_of no_exprs (view_of tree.value) place (stop_view stop) (stack_view frames.old.items)) }
{
    match stop {
        Stop::Bar => opened_pattern(Frame::SequenceBound(tree, place), frames),
        stop => closed_item(alloc, Listed::SequenceOf, tree, place, stop),
    }
}

/// The list of one item, where the word closes it.
fn closed_item(
    alloc: Global,
    listed: Listed,
    tree: Box<Expr>,
    place: Place,
    stop: Stop,
) -> Result<Option<Mode>, OutOfMemory>
    ensures { IfOk result (λ next. (frames : List FrameView) → state_view next frames ≡ closes_list (listed_view listed) (stop_view stop) (in_mode (has (whole_list (listed_view listed) (one_expr (view_of tree.value) no_exprs) place)) (stack_view frames))) }
{
    closed_with(alloc, listed, Vec::new(alloc), tree, place, stop)
}

/// The list with a last item, where the word closes it.
fn closed_with(
    alloc: Global,
    listed: Listed,
    items: Vec<Expr>,
    last: Box<Expr>,
    place: Place,
    stop: Stop,
) -> Result<Option<Mode>, OutOfMemory>
    ensures { IfOk result (λ next. (frames : List FrameView) → state_view next frames ≡ closes_list (listed_view listed) (stop_view stop) (in_mode (has (whole_list (listed_view listed) (and_expr (expr_trees (views_of items.items)) (view_of last.value)) place)) (stack_view frames))) }
{
    let all = with_expr(items, last)?;
    closed_list(alloc, listed, all, place, stop)
}

/// The list, where the word closes it.
fn closed_list(
    alloc: Global,
    listed: Listed,
    items: Vec<Expr>,
    place: Place,
    stop: Stop,
) -> Result<Option<Mode>, OutOfMemory>
    ensures { IfOk result (λ next. (frames : List FrameView) → state_view next frames ≡ closes_list (listed_view listed) (stop_view stop) (in_mode (has (whole_list (listed_view listed) (expr_trees (views_of items.items)) place)) (stack_view frames))) }
{
    let wanted = closing(&listed);
    let tree = boxed(alloc, whole_list(listed, items, place))?;
    Ok(next_at(wanted, Mode::Has(tree), stop))
}

/// The word that closes a list.
fn closing(listed: &Listed) -> Stop
    ensures { (stop : StopView) (s : State) → closes_list (listed_view listed.now) stop s ≡ at (stop_view result) stop s }
{
    match listed {
        Listed::SetOf => Stop::CloseCurly,
        Listed::SequenceOf => Stop::CloseSquare,
        _ => Stop::CloseRound,
    }
}

/// The last of a range.
pub fn end_range(
    alloc: Global,
    ranged: Ranged,
    first: Box<Expr>,
    tree: Box<Expr>,
    place: Place,
    stop: Stop,
) -> Result<Option<Mode>, OutOfMemory>
    ensures { IfOk result (λ next. (frames : List FrameView) → state_view next frames ≡ end_range (ranged_view ranged) (view_of first.value) (view_of tree.value) place (stop_view stop) (stack_view frames)) }
{
    match ranged {
        Ranged::InSet => {
            let tree = boxed(alloc, Expr::set_range(first, tree, place))?;
            Ok(next_at(Stop::CloseCurly, Mode::Has(tree), stop))
        }
        Ranged::PartOfSequence(target) => {
            let tree = boxed(alloc, Expr::subsequence(target, first, tree, place))?;
            Ok(next_at(Stop::CloseRound, Mode::Has(tree), stop))
        }
    }
}

/// Behind the value of a key.
pub fn behind_maplet(
    alloc: Global,
    maplets: Vec<Maplet>,
    key: Box<Expr>,
    tree: Box<Expr>,
    place: Place,
    stop: Stop,
    frames: &mut Vec<Frame>,
) -> Result<Option<Mode>, OutOfMemory>
    ensures { IfOk result (λ next. state_view next frames.new.items ≡ behind_maplet (maplet_trees (map maplet_view maplets.items)) (view_of key.value) (view_of tree.value) place (stop_view stop) (stack_view frames.old.items)) }
{
    match stop {
        Stop::Comma => {
            let maplets = with_maplet(maplets, Maplet::new(key, tree))?;
            opened(Frame::MapKey(maplets, place), frames)
        }
        Stop::Bar => behind_pair(alloc, maplets, key, tree, place, frames),
        stop => {
            let maplets = with_maplet(maplets, Maplet::new(key, tree))?;
            let tree = boxed(alloc, Expr::map_enumeration(maplets, place))?;
            Ok(next_at(Stop::CloseCurly, Mode::Has(tree), stop))
        }
    }
}

/// A `|` behind a pair: that of a comprehension, where there is no pair before it.
fn behind_pair(
    alloc: Global,
    maplets: Vec<Maplet>,
    key: Box<Expr>,
    tree: Box<Expr>,
    place: Place,
    frames: &mut Vec<Frame>,
) -> Result<Option<Mode>, OutOfMemory>
    ensures { IfOk result (λ next. state_view next frames.new.items ≡ behind_maplet (maplet_trees (map maplet_view maplets.items)) (view_of key.value) (view_of tree.value) place bar (stack_view frames.old.items)) }
{
    if no_maplets(&maplets) {
        binding(alloc, BindsFor::MapEach(key, tree), place, frames)
    } else {
        Ok(None)
    }
}

/// Whether there is no pair.
fn no_maplets(maplets: &[Maplet]) -> bool
    ensures { result ≡ is_empty_maplets (maplet_trees (map maplet_view maplets.now)) }
{
    match maplets {
        [] => true,
        _ => false,
    }
}

/// The end of a comprehension, with a condition or without.
pub fn end_condition(
    alloc: Global,
    such: Conditioned,
    given: Option<Box<Expr>>,
    place: Place,
    stop: Stop,
) -> Result<Option<Mode>, OutOfMemory>
    ensures { IfOk result (λ next. (frames : List FrameView) → state_view next frames ≡ end_condition (conditioned_view such) (maybe_view given) place (stop_view stop) (stack_view frames)) }
{
    match such {
        Conditioned::SetSuch(element, binds) => {
            let tree = boxed(alloc, Expr::set_comprehension(element, binds, given, place))?;
            Ok(next_at(Stop::CloseCurly, Mode::Has(tree), stop))
        }
        Conditioned::MapSuch(key, value, binds) => {
            let tree = boxed(
                alloc,
                Expr::map_comprehension(key, value, binds, given, place),
            )?;
            Ok(next_at(Stop::CloseCurly, Mode::Has(tree), stop))
        }
        Conditioned::SequenceSuch(item, pattern, set) => {
            let tree = Expr::sequence_comprehension(item, pattern, set, given, place);
            Ok(next_at(Stop::CloseSquare, Mode::Has(boxed(alloc, tree)?), stop))
        }
    }
}
