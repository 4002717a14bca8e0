// The names in patterns.

ghost use Rattle.std.specs.Prelude.{◌≡◌, ◌++◌, ◌∷◌, [], map, IfOk};
ghost use Rattle.expr_tree.specs.View.{defined_trees, defined_view, maplet_pattern_trees, maplet_pattern_view, pattern_trees, pattern_view, pattern_views};
ghost use Rattle.spec_checks.specs.Targets.{defined_names, maplets_names, pattern_names, patterns_names};
ghost use Rattle.check_frames.specs.Below.check_patterns.specs.Shown.{patterns_of};

use check_frames::handed::check_patterns::Patterns;
use expr_tree::{Defined, MapletPattern, Pattern};
use std::alloc::Global;
use vdm_kinds::{Name, OutOfMemory};

/// The names that patterns bind, in text order and as often as they stand there.
pub fn names_of(alloc: Global, patterns: Patterns<'_>) -> Result<Vec<Name>, OutOfMemory>
    ensures { IfOk result (λ names. names.items ≡ patterns_names (patterns_of patterns.entry)) }
{
    let names = Vec::new(alloc);
    match patterns {
        Patterns::One(pattern) => with_names(pattern.as_ref(), names),
        Patterns::Many(patterns) => with_each(patterns.as_slice(), names),
    }
}

/// The names that a pattern binds, likewise.
pub fn names_in(alloc: Global, pattern: &Pattern) -> Result<Vec<Name>, OutOfMemory>
    ensures { IfOk result (λ names. names.items ≡ pattern_names (pattern_view pattern.now)) }
{
    with_names(pattern, Vec::new(alloc))
}

/// The names that definitions bind, likewise.
pub fn names_defined(alloc: Global, definitions: &[Defined]) -> Result<Vec<Name>, OutOfMemory>
    ensures { IfOk result (λ names. names.items ≡ defined_names (defined_trees (map defined_view definitions.now))) }
{
    let mut names = Vec::new(alloc);
    for definition in definitions {
        names = with_names(definition.pattern.as_ref(), names)?;
    }
    Ok(names)
}

// Behind other names, those in a pattern. It recurses once a level.
#[cycle(named)]
fn with_names(pattern: &Pattern, names: Vec<Name>) -> Result<Vec<Name>, OutOfMemory>
    ensures { IfOk result (λ all. all.items ≡ names.items ++ pattern_names (pattern_view pattern.now)) }
{
    match pattern {
        Pattern::AnyValue(_) => Ok(names),
        Pattern::Bound(name, _) => with_name(*name, names),
        Pattern::Literal(_, _) => Ok(names),
        Pattern::EqualTo(_, _) => Ok(names),
        Pattern::Set(parts, _) => with_each(parts.as_slice(), names),
        Pattern::Sequence(parts, _) => with_each(parts.as_slice(), names),
        Pattern::Map(maplets, _) => with_each_pair(maplets.as_slice(), names),
        Pattern::EmptyMap(_) => Ok(names),
        Pattern::Tuple(parts, _) => with_each(parts.as_slice(), names),
        Pattern::Record(_, parts, _) => with_each(parts.as_slice(), names),
        Pattern::Concatenation(parts, _) => with_each(parts.as_slice(), names),
    }
}

fn with_name(name: Name, names: Vec<Name>) -> Result<Vec<Name>, OutOfMemory>
    ensures { IfOk result (λ all. all.items ≡ names.items ++ name ∷ []) }
{
    let mut all = names;
    all.push(name)?;
    Ok(all)
}

#[cycle(named)]
fn with_each(patterns: &[Pattern], names: Vec<Name>) -> Result<Vec<Name>, OutOfMemory>
    ensures { IfOk result (λ all. all.items ≡ names.items ++ patterns_names (pattern_trees (pattern_views patterns.now))) }
{
    let mut names = names;
    for pattern in patterns {
        names = with_names(pattern, names)?;
    }
    Ok(names)
}

#[cycle(named)]
fn with_each_pair(maplets: &[MapletPattern], names: Vec<Name>) -> Result<Vec<Name>, OutOfMemory>
    ensures { IfOk result (λ all. all.items ≡ names.items ++ maplets_names (maplet_pattern_trees (map maplet_pattern_view maplets.now))) }
{
    let mut names = names;
    for maplet in maplets {
        names = with_names(maplet.key.as_ref(), names)?;
        names = with_names(maplet.value.as_ref(), names)?;
    }
    Ok(names)
}
