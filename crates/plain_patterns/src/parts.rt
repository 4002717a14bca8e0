// What has to match where a pattern matches a value.

use crate::literals::is_literal;
use crate::records::fields;
use expr_tree::{MapletPattern, Pattern, TypeNames};
use std::alloc::Global;
use vdm_kinds::{Name, OutOfMemory};
use vdm_values::{Node, Value};

/// A pattern; or that of a key, and that of its value.
pub(crate) type PatternGroup<'t> = (&'t Pattern, Option<&'t Pattern>);

/// A value; or a key and its value.
pub(crate) type ValueGroup<'t> = (&'t Value, Option<&'t Value>);

/// What has to match.
#[derive(Drop)]
pub(crate) enum Further<'t> {
    /// Nothing more: it is told already whether they match.
    Nothing(bool),
    /// Nothing more: a name, or else a bracketed expression, stands for the value.
    Meets(Option<Name>),
    /// The first pattern the first value, and so on.
    InTurn(&'t [Pattern], &'t [Value]),
    /// Each pattern a value of its own, and none is left.
    EachIts(Vec<PatternGroup<'t>>, Vec<ValueGroup<'t>>),
    /// Each pattern a piece of a sequence, and none is left.
    Pieces(&'t [Pattern], &'t [Value]),
}

/// What has to match where the pattern matches the value.
pub(crate) fn parts<'t, N: TypeNames>(
    alloc: Global,
    pattern: &'t Pattern,
    value: &'t Value,
    scope: Name,
    names: &N,
) -> Result<Further<'t>, OutOfMemory> {
    match pattern {
        Pattern::AnyValue(_) => Ok(Further::Nothing(true)),
        Pattern::Bound(name, _) => Ok(Further::Meets(Some(*name))),
        Pattern::EqualTo(_, _) => Ok(Further::Meets(None)),
        Pattern::Literal(literal, _) => Ok(Further::Nothing(is_literal(literal, value))),
        Pattern::EmptyMap(_) => Ok(Further::Nothing(is_empty_map(value))),
        Pattern::Record(name, patterns, _) => {
            Ok(in_turn(patterns.as_slice(), fields(value, *name, scope, names)))
        }
        _ => parts_of_kind(alloc, pattern, value.node()),
    }
}

// Those of a pattern that matches values of one kind alone.
fn parts_of_kind<'t>(
    alloc: Global,
    pattern: &'t Pattern,
    node: &'t Node,
) -> Result<Further<'t>, OutOfMemory> {
    match (pattern, node) {
        (Pattern::Sequence(patterns, _), Node::Seq(values))
        | (Pattern::Tuple(patterns, _), Node::Tuple(values)) => {
            Ok(Further::InTurn(patterns.as_slice(), values.as_slice()))
        }
        (Pattern::Set(patterns, _), Node::Set(values)) => Ok(Further::EachIts(
            each_pattern(alloc, patterns.as_slice())?,
            each_value(alloc, values.as_slice())?,
        )),
        (Pattern::Map(maplets, _), Node::Map(pairs)) => Ok(Further::EachIts(
            each_maplet(alloc, maplets.as_slice())?,
            each_pair(alloc, pairs.as_slice())?,
        )),
        (Pattern::Concatenation(patterns, _), Node::Seq(items)) => {
            Ok(Further::Pieces(patterns.as_slice(), items.as_slice()))
        }
        _ => Ok(Further::Nothing(false)),
    }
}

fn in_turn<'t>(patterns: &'t [Pattern], values: Option<&'t [Value]>) -> Further<'t> {
    match values {
        Some(values) => Further::InTurn(patterns, values),
        None => Further::Nothing(false),
    }
}

fn is_empty_map(value: &Value) -> bool {
    matches!(value.node(), Node::Map(pairs) if pairs.len() == 0)
}

fn each_pattern(alloc: Global, patterns: &[Pattern]) -> Result<Vec<PatternGroup<'_>>, OutOfMemory> {
    let mut groups = Vec::new(alloc);
    for pattern in patterns {
        groups.push((pattern, None))?;
    }
    Ok(groups)
}

fn each_value(alloc: Global, values: &[Value]) -> Result<Vec<ValueGroup<'_>>, OutOfMemory> {
    let mut groups = Vec::new(alloc);
    for value in values {
        groups.push((value, None))?;
    }
    Ok(groups)
}

fn each_maplet(
    alloc: Global,
    maplets: &[MapletPattern],
) -> Result<Vec<PatternGroup<'_>>, OutOfMemory> {
    let mut groups = Vec::new(alloc);
    for maplet in maplets {
        let key: &Pattern = &maplet.key;
        let value: &Pattern = &maplet.value;
        groups.push((key, Some(value)))?;
    }
    Ok(groups)
}

fn each_pair(alloc: Global, pairs: &[(Value, Value)]) -> Result<Vec<ValueGroup<'_>>, OutOfMemory> {
    let mut groups = Vec::new(alloc);
    for (key, value) in pairs {
        groups.push((key, Some(value)))?;
    }
    Ok(groups)
}

/// The values but for those of this index.
pub(crate) fn without<'t>(
    alloc: Global,
    values: &[ValueGroup<'t>],
    index: usize,
) -> Result<Vec<ValueGroup<'t>>, OutOfMemory> {
    let mut left = Vec::new(alloc);
    for (i, value) in values.iter().enumerate() {
        if i != index {
            left.push(*value)?;
        }
    }
    Ok(left)
}

/// The sequence of these items.
pub(crate) fn sequence(alloc: Global, items: &[Value]) -> Result<Value, OutOfMemory> {
    let mut copies = Vec::new(alloc);
    for item in items {
        copies.push(item.copy(alloc)?)?;
    }
    Ok(Value::new(Node::Seq(copies)))
}
