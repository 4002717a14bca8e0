// Sets of sets.

ghost use Rattle.std.specs.Prelude.{◌≡◌, ◌∷◌, map, true, IfOk};
ghost use Rattle.std.specs.List.{list_all, filter};
ghost use Rattle.std.specs.List.Sorted.{IsStrictlySortedBy};
ghost use Rattle.abstract_syntax.specs.ValueOrder.{value_order};
ghost use Rattle.abstract_syntax.specs.ValueSets.{set_value};
ghost use Rattle.value_operators.specs.Members.{has as has_member};
ghost use Rattle.value_operators.specs.Outcomes.{Gives, sized as sized_outcome};
ghost use Rattle.value_operators.specs.Sets.{is_set, members_of, in_every, of_all_sets, on_set_of_sets, union_of_all as union_of, inter_of_all as inter_of};

use std::alloc::Global;
use value_results::{has, push_copies, push_copy, set_result, sized};
use vdm_kinds::{Halt, OutOfMemory, RunFault};
use vdm_values::{Node, Value};

/// The set of the members of all sets.
pub(crate) fn union_of_all(alloc: Global, a: &Value) -> Result<Value, Halt<RunFault>>
    ensures { Gives result (on_set_of_sets union_of a.now) }
{
    match a.node() {
        Node::Set(sets) => all_members(alloc, sets.as_slice()),
        _ => Err(Halt::Of(RunFault::TypeFault)),
    }
}

fn all_members(alloc: Global, sets: &[Value]) -> Result<Value, Halt<RunFault>>
    ensures { Gives result (of_all_sets union_of sets.now) }
{
    let mut members = Vec::new(alloc);
    for set in sets {
        let Node::Set(others) = set.node() else {
            return Err(Halt::Of(RunFault::TypeFault));
        };
        push_copies(alloc, &mut members, others.as_slice())?;
    }
    set_result(alloc, members)
}

/// The set of the members that all sets have.
pub(crate) fn inter_of_all(alloc: Global, a: &Value) -> Result<Value, Halt<RunFault>>
    ensures { Gives result (on_set_of_sets inter_of a.now) }
{
    match a.node() {
        Node::Set(sets) => common_members(alloc, sets.as_slice()),
        _ => Err(Halt::Of(RunFault::TypeFault)),
    }
}

fn common_members(alloc: Global, sets: &[Value]) -> Result<Value, Halt<RunFault>>
    ensures { Gives result (of_all_sets inter_of sets.now) }
{
    if !are_sets(sets) {
        return Err(Halt::Of(RunFault::TypeFault));
    }
    match sets {
        [] => Err(Halt::Of(RunFault::EmptyOperand)),
        [first, others @ ..] => common_to(alloc, first, others),
    }
}

fn are_sets(sets: &[Value]) -> bool
    ensures { result ≡ list_all is_set sets.now }
{
    for set in sets {
        if !is_a_set(set) {
            return false;
        }
    }
    true
}

fn is_a_set(value: &Value) -> bool
    ensures { result ≡ is_set value.now }
{
    matches!(value.node(), Node::Set(_))
}

// The members of the first set that all others have.
fn common_to(alloc: Global, first: &Value, others: &[Value]) -> Result<Value, Halt<RunFault>>
    requires { is_set first.now ≡ true }
    ensures { Gives result (inter_of (members_of first.now ∷ map members_of others.now)) }
{
    match first.node() {
        Node::Set(members) => of_members(alloc, members.as_slice(), others),
        _ => Err(Halt::Of(RunFault::TypeFault)),
    }
}

fn of_members(alloc: Global, members: &[Value], sets: &[Value]) -> Result<Value, Halt<RunFault>>
    requires { IsStrictlySortedBy value_order members.now }
    ensures { Gives result (sized_outcome (set_value (filter (in_every (map members_of sets.now)) members.now))) }
{
    let kept = in_all(alloc, members, sets)?;
    sized(Value::new(Node::Set(kept)))
}

fn in_all(alloc: Global, members: &[Value], sets: &[Value]) -> Result<Vec<Value>, OutOfMemory>
    ensures { IfOk result (λ kept. kept.items ≡ filter (in_every (map members_of sets.now)) members.now) }
{
    let mut kept = Vec::new(alloc);
    for member in members {
        if all_have(sets, member) {
            push_copy(alloc, &mut kept, member)?;
        }
    }
    Ok(kept)
}

fn all_have(sets: &[Value], value: &Value) -> bool
    ensures { result ≡ in_every (map members_of sets.now) value.now }
{
    for set in sets {
        if !set_has(set, value) {
            return false;
        }
    }
    true
}

fn set_has(set: &Value, value: &Value) -> bool
    ensures { result ≡ has_member (members_of set.now) value.now }
{
    match set.node() {
        Node::Set(members) => has(members.as_slice(), value),
        _ => false,
    }
}
