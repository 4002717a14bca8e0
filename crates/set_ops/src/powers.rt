// Power sets.

ghost use Rattle.std.specs.Prelude.{◌≡◌, ◌<◌, ◌≤◌, ◌+◌, ◌*◌, ◌^◌, ◌∷◌, ◌++◌, map, min, IsTrue, IfOk};
ghost use Rattle.std.specs.List.{All};
ghost use Rattle.std.specs.List.Sorted.{IsStrictlySortedBy};
ghost use Rattle.abstract_syntax.specs.Values.{nodes_of, nodes_of_values, value_trees};
ghost use Rattle.abstract_syntax.specs.ValueOrder.{value_order};
ghost use Rattle.abstract_syntax.specs.ValueSets.{set_value};
ghost use Rattle.value_operators.specs.Outcomes.{Gives, on_set, sized as sized_outcome};
ghost use Rattle.value_operators.specs.Sets.{power_set as power_of, sublists as sublists_of};

use std::alloc::Global;
use value_results::{push_copies, push_copy, set_result};
use vdm_kinds::{Halt, OutOfMemory, RunFault};
use vdm_sets::nodes;
use vdm_values::{Node, Value, ValueList};

// With more members the set of all subsets is too large.
const MOST_MEMBERS: usize = 14;

// Twice the nodes that a value may have, less 2 for the set itself.
const MOST_DOUBLED: u64 = 399_998;

/// The set of all subsets.
pub(crate) fn power_set(alloc: Global, a: &Value) -> Result<Value, Halt<RunFault>>
    ensures { Gives result (on_set (λ vs. sized_outcome (power_of vs)) a.now) }
{
    match a.node() {
        Node::Set(members) => of_members(alloc, members.as_slice(), nodes(a)),
        _ => Err(Halt::Of(RunFault::TypeFault)),
    }
}

// How large it is is found before it is made, by the nodes of the set.
fn of_members(alloc: Global, members: &[Value], nodes: u64) -> Result<Value, Halt<RunFault>>
    requires { IsStrictlySortedBy value_order members.now × (nodes ≡ min (1 + nodes_of_values (value_trees members.now)) 18446744073709551615) }
    ensures { Gives result (sized_outcome (power_of members.now)) }
{
    if is_too_large(members, nodes) {
        return Err(Halt::Of(RunFault::SizeLimit));
    }
    let lists = sublists(alloc, members)?;
    let subsets = sets(alloc, lists.as_slice())?;
    set_result(alloc, subsets)
}

// With n members, 2^n subsets have a node each, and each member stands in half of them.
fn is_too_large(members: &[Value], nodes: u64) -> bool
    requires { IsStrictlySortedBy value_order members.now × (nodes ≡ min (1 + nodes_of_values (value_trees members.now)) 18446744073709551615) }
    ensures { IsTrue result → 200000 < nodes_of (power_of members.now) }
{
    if members.len() > MOST_MEMBERS {
        return true;
    }
    doubled(members.len(), nodes) > MOST_DOUBLED
}

// Twice the nodes of all subsets.
fn doubled(count: usize, nodes: u64) -> u64
    requires { count ≤ 14 }
    ensures { result ≡ min (2 ^ count * min (nodes + 1) 18446744073709551615) 18446744073709551615 }
{
    let subsets: u64 = 1 << count;
    subsets.saturating_mul(nodes.saturating_add(1))
}

// Every list that leaves some members away, or none.
fn sublists(alloc: Global, members: &[Value]) -> Result<Vec<ValueList>, OutOfMemory>
    ensures { IfOk result (λ lists. lists.items ≡ sublists_of members.now) }
{
    let mut lists = Vec::new(alloc);
    lists.push(ValueList::from_vec(Vec::new(alloc)))?;
    for index in (0..members.len()).rev() {
        lists = with_and_without(alloc, &members[index], lists)?;
    }
    Ok(lists)
}

fn with_and_without(
    alloc: Global,
    member: &Value,
    mut lists: Vec<ValueList>,
) -> Result<Vec<ValueList>, OutOfMemory>
    ensures { IfOk result (λ both. both.items ≡ map (λ ws. member.now ∷ ws) lists.items ++ lists.items) }
{
    let mut both = with_member(alloc, member, lists.as_slice())?;
    both.append(&mut lists)?;
    Ok(both)
}

fn with_member(
    alloc: Global,
    member: &Value,
    lists: &[ValueList],
) -> Result<Vec<ValueList>, OutOfMemory>
    ensures { IfOk result (λ longer. longer.items ≡ map (λ ws. member.now ∷ ws) lists.now) }
{
    let mut longer = Vec::new(alloc);
    for list in lists {
        longer.push(in_front(alloc, member, list)?)?;
    }
    Ok(longer)
}

fn in_front(alloc: Global, member: &Value, list: &ValueList) -> Result<ValueList, OutOfMemory>
    ensures { IfOk result (λ longer. longer ≡ member.now ∷ list.now) }
{
    let mut values = Vec::new(alloc);
    push_copy(alloc, &mut values, member)?;
    push_copies(alloc, &mut values, list.as_slice())?;
    Ok(ValueList::from_vec(values))
}

// The sets of lists that rise.
fn sets(alloc: Global, lists: &[ValueList]) -> Result<Vec<Value>, OutOfMemory>
    requires { All (IsStrictlySortedBy value_order) lists.now }
    ensures { IfOk result (λ sets. sets.items ≡ map set_value lists.now) }
{
    let mut sets = Vec::with_capacity(alloc, lists.len())?;
    for list in lists {
        let copy = list.copy(alloc)?;
        sets.push(Value::new(Node::Set(copy.into_vec())))?;
    }
    Ok(sets)
}
