// The ways in which a pattern matches a value.

use crate::parts::{Further, PatternGroup, ValueGroup, parts, sequence, without};
use expr_tree::{Pattern, TypeNames};
use std::alloc::Global;
use vdm_kinds::{Name, OutOfMemory};
use vdm_values::Value;

/// What the names of a pattern stand for, in text order, and what its bracketed expressions have to be: these have no name.
pub(crate) type Way = Vec<(Option<Name>, Value)>;

/// The ways, in the order in which they are tried. At most so many levels deep.
#[cycle(ways)]
pub(crate) fn ways<N: TypeNames>(
    alloc: Global,
    pattern: &Pattern,
    value: &Value,
    scope: Name,
    names: &N,
    levels: u32,
) -> Result<Vec<Way>, OutOfMemory> {
    let levels = levels.checked_sub(1).ok_or(OutOfMemory)?;
    match parts(alloc, pattern, value, scope, names)? {
        Further::Nothing(matches) => Ok(nothing_where(alloc, matches)?),
        Further::Meets(name) => Ok(meeting(alloc, name, value)?),
        Further::InTurn(patterns, values) => {
            in_turn(alloc, patterns, values, scope, names, levels)
        }
        Further::EachIts(patterns, values) => each_its(
            alloc,
            patterns.as_slice(),
            values.as_slice(),
            scope,
            names,
            levels,
        ),
        Further::Pieces(patterns, items) => pieces(alloc, patterns, items, scope, names, levels),
    }
}

// The first pattern with the first value, and so on.
#[cycle(ways)]
fn in_turn<N: TypeNames>(
    alloc: Global,
    patterns: &[Pattern],
    values: &[Value],
    scope: Name,
    names: &N,
    levels: u32,
) -> Result<Vec<Way>, OutOfMemory> {
    let levels = levels.checked_sub(1).ok_or(OutOfMemory)?;
    let mut found = nothing_where(alloc, patterns.len() == values.len())?;
    for (pattern, value) in patterns.iter().zip(values) {
        let next = ways(alloc, pattern, value, scope, names, levels)?;
        found = crossed(alloc, found.as_slice(), next.as_slice())?;
    }
    Ok(found)
}

// Each of the patterns has values of its own, which may stand anywhere, and none are left: the first pattern takes each in turn.
#[cycle(ways)]
fn each_its<N: TypeNames>(
    alloc: Global,
    patterns: &[PatternGroup<'_>],
    values: &[ValueGroup<'_>],
    scope: Name,
    names: &N,
    levels: u32,
) -> Result<Vec<Way>, OutOfMemory> {
    let levels = levels.checked_sub(1).ok_or(OutOfMemory)?;
    let [pattern, others @ ..] = patterns else {
        return Ok(nothing_where(alloc, values.len() == 0)?);
    };
    let mut found = Vec::new(alloc);
    for (i, value) in values.iter().enumerate() {
        let firsts = both(alloc, *pattern, *value, scope, names, levels)?;
        let left = without(alloc, values, i)?;
        let seconds = each_its(alloc, others, left.as_slice(), scope, names, levels)?;
        add_crossed(alloc, firsts.as_slice(), seconds.as_slice(), &mut found)?;
    }
    Ok(found)
}

// A pattern with a value, and where there are two of them the second with the second.
#[cycle(ways)]
fn both<N: TypeNames>(
    alloc: Global,
    patterns: PatternGroup<'_>,
    values: ValueGroup<'_>,
    scope: Name,
    names: &N,
    levels: u32,
) -> Result<Vec<Way>, OutOfMemory> {
    let levels = levels.checked_sub(1).ok_or(OutOfMemory)?;
    let firsts = ways(alloc, patterns.0, values.0, scope, names, levels)?;
    match (patterns.1, values.1) {
        (Some(pattern), Some(value)) => {
            let seconds = ways(alloc, pattern, value, scope, names, levels)?;
            Ok(crossed(alloc, firsts.as_slice(), seconds.as_slice())?)
        }
        _ => Ok(firsts),
    }
}

// The first pattern takes each front in turn, the shortest first, and leaves the rest to the others, which leave nothing.
#[cycle(ways)]
fn pieces<N: TypeNames>(
    alloc: Global,
    patterns: &[Pattern],
    items: &[Value],
    scope: Name,
    names: &N,
    levels: u32,
) -> Result<Vec<Way>, OutOfMemory> {
    let levels = levels.checked_sub(1).ok_or(OutOfMemory)?;
    let [pattern, others @ ..] = patterns else {
        return Ok(nothing_where(alloc, items.len() == 0)?);
    };
    let mut found = Vec::new(alloc);
    for length in 0..=items.len() {
        let (front, rest) = items.split_at(length);
        let front = sequence(alloc, front)?;
        let firsts = ways(alloc, pattern, &front, scope, names, levels)?;
        let seconds = pieces(alloc, others, rest, scope, names, levels)?;
        add_crossed(alloc, firsts.as_slice(), seconds.as_slice(), &mut found)?;
    }
    Ok(found)
}

// One way, which names nothing; or none.
fn nothing_where(alloc: Global, matches: bool) -> Result<Vec<Way>, OutOfMemory> {
    let mut found = Vec::new(alloc);
    if matches {
        found.push(Vec::new(alloc))?;
    }
    Ok(found)
}

// One way, in which a name or a bracketed expression stands for the value.
fn meeting(alloc: Global, name: Option<Name>, value: &Value) -> Result<Vec<Way>, OutOfMemory> {
    let mut way = Vec::new(alloc);
    way.push((name, value.copy(alloc)?))?;
    let mut found = Vec::new(alloc);
    found.push(way)?;
    Ok(found)
}

fn crossed(alloc: Global, firsts: &[Way], seconds: &[Way]) -> Result<Vec<Way>, OutOfMemory> {
    let mut found = Vec::new(alloc);
    add_crossed(alloc, firsts, seconds, &mut found)?;
    Ok(found)
}

// Each of the first ways with each of the second behind it, the first varying slowest.
fn add_crossed(
    alloc: Global,
    firsts: &[Way],
    seconds: &[Way],
    found: &mut Vec<Way>,
) -> Result<(), OutOfMemory> {
    for first in firsts {
        for second in seconds {
            let mut way = Vec::new(alloc);
            add_way(alloc, first.as_slice(), &mut way)?;
            add_way(alloc, second.as_slice(), &mut way)?;
            found.push(way)?;
        }
    }
    Ok(())
}

fn add_way(
    alloc: Global,
    added: &[(Option<Name>, Value)],
    way: &mut Way,
) -> Result<(), OutOfMemory> {
    for (name, value) in added {
        way.push((*name, value.copy(alloc)?))?;
    }
    Ok(())
}
