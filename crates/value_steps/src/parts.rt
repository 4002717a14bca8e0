// The next of the parts whose values are still to come.

ghost use Rattle.std.specs.Prelude.{◌≡◌, MatchOption, map, drop};
ghost use Rattle.abstract_syntax.specs.Expressions.{no_exprs, one_expr};
ghost use Rattle.expr_tree.specs.View.{view_of, views_of, boxed_view, expr_trees, maplet_view, maplet_trees, field_value_view, field_value_trees};
ghost use Rattle.node_meaning.specs.Matching.{exprs_of};
ghost use Rattle.node_meaning.specs.Records.{field_exprs};
ghost use Rattle.node_meaning.specs.Strict.{maplet_exprs};
ghost use Rattle.eval_data.specs.Parts.{parts_of, boxed_list};

use eval_data::Parts;
use expr_tree::{Expr, FieldValue, Maplet};

/// The next part, and those behind it.
pub fn next_part<'t>(parts: Parts<'t>) -> Option<(&'t Expr, Parts<'t>)>
    ensures { MatchOption result (parts_of parts.entry ≡ no_exprs) (λ p. parts_of parts.entry ≡ one_expr (view_of p.0.now) (parts_of p.1)) }
{
    match parts {
        Parts::None => None,
        Parts::One(a) => Some((boxed(a), Parts::None)),
        Parts::Two(a, b) => Some((boxed(a), Parts::One(b))),
        Parts::Three(a, b, c) => Some((boxed(a), Parts::Two(b, c))),
        Parts::Items(items, from) => next_item(items, from),
        Parts::Maplets(maplets) => next_key(maplets),
        Parts::MapletValue(held, maplets) => Some((boxed(held), Parts::Maplets(maplets))),
        Parts::Changes(changes) => next_change(changes),
        Parts::Brackets(found, from) => next_bracket(found, from),
    }
}

/// What the reference leads to.
pub(crate) fn boxed<'t>(tree: &'t Box<Expr>) -> &'t Expr
    ensures { view_of result.now ≡ boxed_view tree.now }
{
    tree
}

/// The item at a number.
fn next_item<'t>(items: &'t Vec<Expr>, from: usize) -> Option<(&'t Expr, Parts<'t>)>
    ensures { MatchOption result (expr_trees (drop from (views_of items.now.items)) ≡ no_exprs) (λ p. expr_trees (drop from (views_of items.now.items)) ≡ one_expr (view_of p.0.now) (parts_of p.1)) }
{
    if from >= items.len() {
        return None;
    }
    Some((&items[from], Parts::Items(items, from + 1)))
}

/// The key of the first of the maplets.
fn next_key<'t>(maplets: &'t [Maplet]) -> Option<(&'t Expr, Parts<'t>)>
    ensures { MatchOption result (maplet_exprs (maplet_trees (map maplet_view maplets.now)) ≡ no_exprs) (λ p. maplet_exprs (maplet_trees (map maplet_view maplets.now)) ≡ one_expr (view_of p.0.now) (parts_of p.1)) }
{
    match maplets {
        [] => None,
        [first, others @ ..] => Some((boxed(&first.key), Parts::MapletValue(&first.value, others))),
    }
}

/// The new value of the first of the fields.
fn next_change<'t>(changes: &'t [FieldValue]) -> Option<(&'t Expr, Parts<'t>)>
    ensures { MatchOption result (field_exprs (field_value_trees (map field_value_view changes.now)) ≡ no_exprs) (λ p. field_exprs (field_value_trees (map field_value_view changes.now)) ≡ one_expr (view_of p.0.now) (parts_of p.1)) }
{
    match changes {
        [] => None,
        [first, others @ ..] => Some((boxed(&first.value), Parts::Changes(others))),
    }
}

/// The expression at a number.
fn next_bracket<'t>(found: Vec<&'t Box<Expr>>, from: usize) -> Option<(&'t Expr, Parts<'t>)>
    ensures { MatchOption result (exprs_of (drop from (boxed_list found.entry.items)) ≡ no_exprs) (λ p. exprs_of (drop from (boxed_list found.entry.items)) ≡ one_expr (view_of p.0.now) (parts_of p.1)) }
{
    if from >= found.len() {
        return None;
    }
    let tree = found[from];
    Some((boxed(tree), Parts::Brackets(found, from + 1)))
}
