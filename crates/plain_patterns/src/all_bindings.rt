// The bindings of a pattern with a value.

use crate::ways::{Way, ways};
use expr_tree::{Pattern, TypeNames};
use std::alloc::Global;
use vdm_kinds::{Name, OutOfMemory};
use vdm_values::Value;

/// No pattern of a test nests so deep, nor has so many parts.
const MOST_LEVELS: u32 = 1_000;

/// All bindings of a pattern with a value, in the order in which they are tried: the names of the pattern, each once and in the order
/// of their first occurrence, and what they stand for. `given` has the values of the pattern's bracketed expressions in text order. Record
/// patterns name types of the class `scope`.
///
/// # Errors
///
/// Want of memory, and a pattern that is deeper, or has more parts, than tests have.
pub fn bindings<N: TypeNames>(
    alloc: Global,
    pattern: &Pattern,
    value: &Value,
    given: &[Value],
    scope: Name,
    names: &N,
) -> Result<Vec<Vec<(Name, Value)>>, OutOfMemory> {
    let all = ways(alloc, pattern, value, scope, names, MOST_LEVELS)?;
    let mut found = Vec::new(alloc);
    for way in &all {
        if let Some(binding) = merged(alloc, way.as_slice(), given)? {
            found.push(binding)?;
        }
    }
    Ok(found)
}

// What the names of a way stand for, where equal names stand for equal values, and each bracketed expression for the value that is given
// for it.
fn merged(
    alloc: Global,
    way: &[(Option<Name>, Value)],
    given: &[Value],
) -> Result<Option<Vec<(Name, Value)>>, OutOfMemory> {
    let mut binding = Vec::new(alloc);
    let mut given = given.iter();
    for (name, value) in way {
        let known = match name {
            Some(name) => value_of(binding.as_slice(), *name),
            None => given.next(),
        };
        match (name, known) {
            (_, Some(known)) => {
                if known != value {
                    return Ok(None);
                }
            }
            (Some(name), None) => binding.push((*name, value.copy(alloc)?))?,
            (None, None) => return Ok(None),
        }
    }
    Ok(Some(binding))
}

fn value_of(binding: &[(Name, Value)], name: Name) -> Option<&Value> {
    for (other, value) in binding {
        if *other == name {
            return Some(value);
        }
    }
    None
}
