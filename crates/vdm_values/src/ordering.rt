// The canonical order of values.

ghost use Rattle.std.specs.Prelude.{◌≡◌};
ghost use Rattle.std.specs.Ordering.{nat_cmp, ordering_then};
ghost use Rattle.abstract_syntax.specs.Values.{value_trees, pair_trees};
ghost use Rattle.abstract_syntax.specs.ValueOrder.{value_order, items_order, pair_items_order, count_of, count_of_pairs, by_length, kind_number as number_of_kind, name_order as by_name};
ghost use Rattle.vdm_values.specs.Tree.{tree_of};

use crate::value::{Node, Value};
use std::cmp::Ordering;
use vdm_kinds::Name;

/// How the first value stands to the second in the canonical order. It takes no memory.
#[cycle(order)]
pub fn order(a: &Value, b: &Value) -> Ordering
    ensures { result ≡ value_order a.now b.now }
{
    order_of_nodes(a.node(), b.node())
}

#[cycle(order)]
fn order_of_nodes(a: &Node, b: &Node) -> Ordering
    ensures { result ≡ value_order (tree_of a.now) (tree_of b.now) }
{
    match (a, b) {
        (Node::Bool(a), Node::Bool(b)) => a.cmp(b),
        (Node::Int(a), Node::Int(b)) => a.cmp(b),
        (Node::Char(a), Node::Char(b)) => a.cmp(b),
        (Node::Quote(a), Node::Quote(b)) => order_of_names(*a, *b),
        (Node::Token(a), Node::Token(b)) => order(a, b),
        (Node::Tuple(a), Node::Tuple(b)) => order_of_lists(a.as_slice(), b.as_slice()),
        (
            Node::Rec {
                class: c,
                name: m,
                fields: a,
            },
            Node::Rec {
                class: d,
                name: n,
                fields: b,
            },
        ) => order_of_records((*c, *m, a.as_slice()), (*d, *n, b.as_slice())),
        (Node::Seq(a), Node::Seq(b)) => order_of_lists(a.as_slice(), b.as_slice()),
        (Node::Set(a), Node::Set(b)) => order_of_lists(a.as_slice(), b.as_slice()),
        (Node::Map(a), Node::Map(b)) => order_of_maps(a.as_slice(), b.as_slice()),
        (
            Node::Object {
                number: m,
                class: c,
            },
            Node::Object {
                number: n,
                class: d,
            },
        ) => m.cmp(n).then(order_of_names(*c, *d)),
        _ => kind_number(a).cmp(&kind_number(b)),
    }
}

// By the number of the name.
fn order_of_names(a: Name, b: Name) -> Ordering
    ensures { result ≡ by_name a b }
{
    a.0.cmp(&b.0)
}

// Where the kind stands among the twelve.
fn kind_number(node: &Node) -> u8
    ensures { result ≡ number_of_kind (tree_of node.now) }
{
    match node {
        Node::Nil => 0,
        Node::Bool(_) => 1,
        Node::Int(_) => 2,
        Node::Char(_) => 3,
        Node::Quote(_) => 4,
        Node::Token(_) => 5,
        Node::Tuple(_) => 6,
        Node::Rec { .. } => 7,
        Node::Seq(_) => 8,
        Node::Set(_) => 9,
        Node::Map(_) => 10,
        Node::Object { .. } => 11,
    }
}

// By the class's name, then by the type's, then by the fields.
#[cycle(order)]
fn order_of_records(a: (Name, Name, &[Value]), b: (Name, Name, &[Value])) -> Ordering
    ensures { result ≡ ordering_then (by_name a.entry.0 b.entry.0) (ordering_then (by_name a.entry.1 b.entry.1) (by_length (count_of (value_trees a.entry.2.now)) (count_of (value_trees b.entry.2.now)) (items_order (value_trees a.entry.2.now) (value_trees b.entry.2.now)))) }
{
    match order_of_names(a.0, b.0).then(order_of_names(a.1, b.1)) {
        Ordering::Equal => order_of_lists(a.2, b.2),
        other => other,
    }
}

// By length, then by the first item that differs.
#[cycle(order)]
fn order_of_lists(a: &[Value], b: &[Value]) -> Ordering
    ensures { result ≡ by_length (count_of (value_trees a.now)) (count_of (value_trees b.now)) (items_order (value_trees a.now) (value_trees b.now)) }
{
    match a.len().cmp(&b.len()) {
        Ordering::Equal => order_of_items(a, b),
        other => other,
    }
}

// By the first item that differs.
#[cycle(order)]
fn order_of_items(a: &[Value], b: &[Value]) -> Ordering
    ensures { result ≡ items_order (value_trees a.now) (value_trees b.now) }
{
    for (x, y) in a.iter().zip(b) {
        match order(x, y) {
            Ordering::Equal => {}
            other => return other,
        }
    }
    Ordering::Equal
}

// By length, then by the first pair that differs.
#[cycle(order)]
fn order_of_maps(a: &[(Value, Value)], b: &[(Value, Value)]) -> Ordering
    ensures { result ≡ by_length (count_of_pairs (pair_trees a.now)) (count_of_pairs (pair_trees b.now)) (pair_items_order (pair_trees a.now) (pair_trees b.now)) }
{
    match a.len().cmp(&b.len()) {
        Ordering::Equal => order_of_entries(a, b),
        other => other,
    }
}

// By the first pair that differs, key first.
#[cycle(order)]
fn order_of_entries(a: &[(Value, Value)], b: &[(Value, Value)]) -> Ordering
    ensures { result ≡ pair_items_order (pair_trees a.now) (pair_trees b.now) }
{
    for (x, y) in a.iter().zip(b) {
        match order_of_pairs(x, y) {
            Ordering::Equal => {}
            other => return other,
        }
    }
    Ordering::Equal
}

// By key, then by value.
#[cycle(order)]
fn order_of_pairs(a: &(Value, Value), b: &(Value, Value)) -> Ordering
    ensures { result ≡ ordering_then (value_order a.now.0 b.now.0) (value_order a.now.1 b.now.1) }
{
    match order(&a.0, &b.0) {
        Ordering::Equal => order(&a.1, &b.1),
        other => other,
    }
}

impl PartialOrd for Value {
    ghost use Rattle.std.specs.Cmp.{po};
    ghost use Rattle.std.specs.Ordering.{as_partial_cmp};
    ghost use Rattle.abstract_syntax.specs.ValueOrder.{value_order};
    ghost use Rattle.abstract_syntax.specs.ValueOrderTotal.{value_order_total, same_by-order};

    ghost partial_cmp = { as_partial_cmp value_order };

    ghost laws = { po value_order_total same_by-order };

    fn partial_cmp(&self, other: &Value) -> Option<Ordering> {
        Some(order(self, other))
    }
}

impl Ord for Value {
    ghost use Rattle.std.specs.Prelude.{refl};
    ghost use Rattle.abstract_syntax.specs.ValueOrder.{value_order};
    ghost use Rattle.abstract_syntax.specs.ValueOrderTotal.{value_order_total, same_by-order};

    ghost cmp = { value_order };

    ghost total = { value_order_total };

    ghost matches_partial_cmp = { λ _ _. refl };

    ghost matches_eq = { same_by-order };

    fn cmp(&self, other: &Value) -> Ordering {
        order(self, other)
    }
}
