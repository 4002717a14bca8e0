// The expressions in brackets in patterns.

ghost use Rattle.std.specs.Prelude.{◌≡◌, ◌++◌, ◌∷◌, [], map, IfOk};
ghost use Rattle.expr_tree.specs.View.{boxed_view, pattern_view, pattern_views, pattern_trees, maplet_pattern_view, maplet_pattern_trees};
ghost use Rattle.pattern_brackets.specs.Exprs.{expr_trees};
ghost use Rattle.pattern_meaning.specs.Brackets.{given_in, given_in_each, given_in_maplets};

use expr_tree::{Expr, MapletPattern, Pattern};
use std::alloc::Global;
use vdm_kinds::OutOfMemory;

/// The expressions in brackets in a pattern, in text order.
pub fn givens_in<'t>(alloc: Global, pattern: &'t Pattern) -> Result<Vec<&'t Box<Expr>>, OutOfMemory>
    ensures { IfOk result (λ found. expr_trees found.items ≡ given_in (pattern_view pattern.now)) }
{
    with_given(pattern, Vec::new(alloc))
}

/// The expressions in brackets in the patterns, in text order.
pub fn givens_in_each<'t>(
    alloc: Global,
    patterns: &'t [Pattern],
) -> Result<Vec<&'t Box<Expr>>, OutOfMemory>
    ensures { IfOk result (λ found. expr_trees found.items ≡ given_in_each (pattern_trees (pattern_views patterns.now))) }
{
    with_each_given(patterns, Vec::new(alloc))
}

// Behind what is found already, those in a pattern. It recurses once a level.
#[cycle(given)]
fn with_given<'t>(
    pattern: &'t Pattern,
    found: Vec<&'t Box<Expr>>,
) -> Result<Vec<&'t Box<Expr>>, OutOfMemory>
    ensures { IfOk result (λ all. expr_trees all.items ≡ expr_trees found.entry.items ++ given_in (pattern_view pattern.now)) }
{
    match pattern {
        Pattern::AnyValue(_) => Ok(found),
        Pattern::Bound(_, _) => Ok(found),
        Pattern::Literal(_, _) => Ok(found),
        Pattern::EqualTo(inner, _) => with(inner, found),
        Pattern::Set(parts, _) => with_each_given(parts.as_slice(), found),
        Pattern::Sequence(parts, _) => with_each_given(parts.as_slice(), found),
        Pattern::Map(maplets, _) => with_each_pair(maplets.as_slice(), found),
        Pattern::EmptyMap(_) => Ok(found),
        Pattern::Tuple(parts, _) => with_each_given(parts.as_slice(), found),
        Pattern::Record(_, parts, _) => with_each_given(parts.as_slice(), found),
        Pattern::Concatenation(parts, _) => with_each_given(parts.as_slice(), found),
    }
}

fn with<'t>(
    inner: &'t Box<Expr>,
    found: Vec<&'t Box<Expr>>,
) -> Result<Vec<&'t Box<Expr>>, OutOfMemory>
    ensures { IfOk result (λ all. expr_trees all.items ≡ expr_trees found.entry.items ++ boxed_view inner.now ∷ []) }
{
    let mut all = found;
    all.push(inner)?;
    Ok(all)
}

#[cycle(given)]
fn with_each_given<'t>(
    patterns: &'t [Pattern],
    found: Vec<&'t Box<Expr>>,
) -> Result<Vec<&'t Box<Expr>>, OutOfMemory>
    ensures { IfOk result (λ all. expr_trees all.items ≡ expr_trees found.entry.items ++ given_in_each (pattern_trees (pattern_views patterns.now))) }
{
    let mut found = found;
    for pattern in patterns {
        found = with_given(pattern, found)?;
    }
    Ok(found)
}

#[cycle(given)]
fn with_each_pair<'t>(
    maplets: &'t [MapletPattern],
    found: Vec<&'t Box<Expr>>,
) -> Result<Vec<&'t Box<Expr>>, OutOfMemory>
    ensures { IfOk result (λ all. expr_trees all.items ≡ expr_trees found.entry.items ++ given_in_maplets (maplet_pattern_trees (map maplet_pattern_view maplets.now))) }
{
    let mut found = found;
    for maplet in maplets {
        found = with_given(maplet.key.as_ref(), found)?;
        found = with_given(maplet.value.as_ref(), found)?;
    }
    Ok(found)
}
