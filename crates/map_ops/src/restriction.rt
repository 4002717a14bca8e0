// Maps of some of the pairs of a map: by their keys or by their values.

ghost use Rattle.std.specs.Prelude.{◌≡◌, not, IfOk};
ghost use Rattle.std.specs.List.{filter};
ghost use Rattle.std.specs.List.Sorted.{IsStrictlySortedBy};
ghost use Rattle.abstract_syntax.specs.ValueOrder.{value_order};
ghost use Rattle.abstract_syntax.specs.ValueSets.{Entry, key_order};
ghost use Rattle.value_operators.specs.Members.{has as has_member};
ghost use Rattle.value_operators.specs.Outcomes.{Gives, sized as sized_outcome};
ghost use Rattle.value_operators.specs.Maps.{on_set_and_map, kept_keys as kept_by_keys, removed_keys as removed_by_keys, kept_values as kept_by_values, removed_values as removed_by_values};

use std::alloc::Global;
use value_results::{has, push_pair, sized};
use vdm_kinds::{Halt, OutOfMemory, RunFault};
use vdm_values::{Node, Value};

/// The pairs whose keys are among the members of the set.
pub(crate) fn kept_keys(alloc: Global, set: &Value, map: &Value) -> Result<Value, Halt<RunFault>>
    ensures { Gives result (on_set_and_map (λ vs ps. sized_outcome (kept_by_keys vs ps)) set.now map.now) }
{
    match (set.node(), map.node()) {
        (Node::Set(members), Node::Map(pairs)) => {
            of_kept_keys(alloc, members.as_slice(), pairs.as_slice())
        }
        _ => Err(Halt::Of(RunFault::TypeFault)),
    }
}

fn of_kept_keys(
    alloc: Global,
    members: &[Value],
    pairs: &[(Value, Value)],
) -> Result<Value, Halt<RunFault>>
    requires { IsStrictlySortedBy value_order members.now × IsStrictlySortedBy key_order pairs.now }
    ensures { Gives result (sized_outcome (kept_by_keys members.now pairs.now)) }
{
    let kept = copies_of_kept_keys(alloc, members, pairs)?;
    sized(Value::new(Node::Map(kept)))
}

fn copies_of_kept_keys(
    alloc: Global,
    members: &[Value],
    pairs: &[(Value, Value)],
) -> Result<Vec<(Value, Value)>, OutOfMemory>
    requires { IsStrictlySortedBy value_order members.now }
    ensures { IfOk result (λ kept. kept.items ≡ filter (λ (p : Entry). has_member members.now p.0) pairs.now) }
{
    let mut kept = Vec::new(alloc);
    for pair in pairs {
        if has(members, &pair.0) {
            push_pair(alloc, &mut kept, &pair.0, &pair.1)?;
        }
    }
    Ok(kept)
}

/// The pairs whose keys are not.
pub(crate) fn removed_keys(alloc: Global, set: &Value, map: &Value) -> Result<Value, Halt<RunFault>>
    ensures { Gives result (on_set_and_map (λ vs ps. sized_outcome (removed_by_keys vs ps)) set.now map.now) }
{
    match (set.node(), map.node()) {
        (Node::Set(members), Node::Map(pairs)) => {
            of_removed_keys(alloc, members.as_slice(), pairs.as_slice())
        }
        _ => Err(Halt::Of(RunFault::TypeFault)),
    }
}

fn of_removed_keys(
    alloc: Global,
    members: &[Value],
    pairs: &[(Value, Value)],
) -> Result<Value, Halt<RunFault>>
    requires { IsStrictlySortedBy value_order members.now × IsStrictlySortedBy key_order pairs.now }
    ensures { Gives result (sized_outcome (removed_by_keys members.now pairs.now)) }
{
    let kept = copies_of_removed_keys(alloc, members, pairs)?;
    sized(Value::new(Node::Map(kept)))
}

fn copies_of_removed_keys(
    alloc: Global,
    members: &[Value],
    pairs: &[(Value, Value)],
) -> Result<Vec<(Value, Value)>, OutOfMemory>
    requires { IsStrictlySortedBy value_order members.now }
    ensures { IfOk result (λ kept. kept.items ≡ filter (λ (p : Entry). not (has_member members.now p.0)) pairs.now) }
{
    let mut kept = Vec::new(alloc);
    for pair in pairs {
        if !has(members, &pair.0) {
            push_pair(alloc, &mut kept, &pair.0, &pair.1)?;
        }
    }
    Ok(kept)
}

/// The pairs whose values are among the members of the set.
pub(crate) fn kept_values(alloc: Global, set: &Value, map: &Value) -> Result<Value, Halt<RunFault>>
    ensures { Gives result (on_set_and_map (λ vs ps. sized_outcome (kept_by_values vs ps)) set.now map.now) }
{
    match (set.node(), map.node()) {
        (Node::Set(members), Node::Map(pairs)) => {
            of_kept_values(alloc, members.as_slice(), pairs.as_slice())
        }
        _ => Err(Halt::Of(RunFault::TypeFault)),
    }
}

fn of_kept_values(
    alloc: Global,
    members: &[Value],
    pairs: &[(Value, Value)],
) -> Result<Value, Halt<RunFault>>
    requires { IsStrictlySortedBy value_order members.now × IsStrictlySortedBy key_order pairs.now }
    ensures { Gives result (sized_outcome (kept_by_values members.now pairs.now)) }
{
    let kept = copies_of_kept_values(alloc, members, pairs)?;
    sized(Value::new(Node::Map(kept)))
}

fn copies_of_kept_values(
    alloc: Global,
    members: &[Value],
    pairs: &[(Value, Value)],
) -> Result<Vec<(Value, Value)>, OutOfMemory>
    requires { IsStrictlySortedBy value_order members.now }
    ensures { IfOk result (λ kept. kept.items ≡ filter (λ (p : Entry). has_member members.now p.1) pairs.now) }
{
    let mut kept = Vec::new(alloc);
    for pair in pairs {
        if has(members, &pair.1) {
            push_pair(alloc, &mut kept, &pair.0, &pair.1)?;
        }
    }
    Ok(kept)
}

/// The pairs whose values are not.
pub(crate) fn removed_values(
    alloc: Global,
    set: &Value,
    map: &Value,
) -> Result<Value, Halt<RunFault>>
    ensures { Gives result (on_set_and_map (λ vs ps. sized_outcome (removed_by_values vs ps)) set.now map.now) }
{
    match (set.node(), map.node()) {
        (Node::Set(members), Node::Map(pairs)) => {
            of_removed_values(alloc, members.as_slice(), pairs.as_slice())
        }
        _ => Err(Halt::Of(RunFault::TypeFault)),
    }
}

fn of_removed_values(
    alloc: Global,
    members: &[Value],
    pairs: &[(Value, Value)],
) -> Result<Value, Halt<RunFault>>
    requires { IsStrictlySortedBy value_order members.now × IsStrictlySortedBy key_order pairs.now }
    ensures { Gives result (sized_outcome (removed_by_values members.now pairs.now)) }
{
    let kept = copies_of_removed_values(alloc, members, pairs)?;
    sized(Value::new(Node::Map(kept)))
}

fn copies_of_removed_values(
    alloc: Global,
    members: &[Value],
    pairs: &[(Value, Value)],
) -> Result<Vec<(Value, Value)>, OutOfMemory>
    requires { IsStrictlySortedBy value_order members.now }
    ensures { IfOk result (λ kept. kept.items ≡ filter (λ (p : Entry). not (has_member members.now p.1)) pairs.now) }
{
    let mut kept = Vec::new(alloc);
    for pair in pairs {
        if !has(members, &pair.1) {
            push_pair(alloc, &mut kept, &pair.0, &pair.1)?;
        }
    }
    Ok(kept)
}
