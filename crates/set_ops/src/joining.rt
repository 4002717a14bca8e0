// Sets of the members of two sets.

ghost use Rattle.std.specs.Prelude.{◌≡◌, not, IfOk};
ghost use Rattle.std.specs.List.{filter};
ghost use Rattle.std.specs.List.Sorted.{IsStrictlySortedBy};
ghost use Rattle.abstract_syntax.specs.ValueOrder.{value_order};
ghost use Rattle.value_operators.specs.Members.{has as has_member};
ghost use Rattle.value_operators.specs.Outcomes.{Gives, sized as sized_outcome};
ghost use Rattle.value_operators.specs.Sets.{union as union_of, inter as inter_of, difference as difference_of};

use std::alloc::Global;
use value_results::{has, push_copies, push_copy, set_result, sized};
use vdm_kinds::{Halt, OutOfMemory, RunFault};
use vdm_values::{Node, Value};

/// The set that has the members of both.
pub(crate) fn union(alloc: Global, a: &[Value], b: &[Value]) -> Result<Value, Halt<RunFault>>
    requires { IsStrictlySortedBy value_order a.now }
    ensures { Gives result (sized_outcome (union_of a.now b.now)) }
{
    let mut members = missing(alloc, b, a)?;
    push_copies(alloc, &mut members, a)?;
    set_result(alloc, members)
}

/// The set of the members of the first that the second has.
pub(crate) fn inter(alloc: Global, a: &[Value], b: &[Value]) -> Result<Value, Halt<RunFault>>
    requires { IsStrictlySortedBy value_order a.now × IsStrictlySortedBy value_order b.now }
    ensures { Gives result (sized_outcome (inter_of a.now b.now)) }
{
    let members = common(alloc, a, b)?;
    sized(Value::new(Node::Set(members)))
}

/// The set of those that it does not have.
pub(crate) fn difference(alloc: Global, a: &[Value], b: &[Value]) -> Result<Value, Halt<RunFault>>
    requires { IsStrictlySortedBy value_order a.now × IsStrictlySortedBy value_order b.now }
    ensures { Gives result (sized_outcome (difference_of a.now b.now)) }
{
    let members = missing(alloc, a, b)?;
    sized(Value::new(Node::Set(members)))
}

// Copies of the members that the others have.
fn common(alloc: Global, members: &[Value], others: &[Value]) -> Result<Vec<Value>, OutOfMemory>
    requires { IsStrictlySortedBy value_order others.now }
    ensures { IfOk result (λ kept. kept.items ≡ filter (has_member others.now) members.now) }
{
    let mut kept = Vec::new(alloc);
    for member in members {
        if has(others, member) {
            push_copy(alloc, &mut kept, member)?;
        }
    }
    Ok(kept)
}

// Copies of the members that the others do not have.
fn missing(alloc: Global, members: &[Value], others: &[Value]) -> Result<Vec<Value>, OutOfMemory>
    requires { IsStrictlySortedBy value_order others.now }
    ensures { IfOk result (λ kept. kept.items ≡ filter (λ v. not (has_member others.now v)) members.now) }
{
    let mut kept = Vec::new(alloc);
    for member in members {
        if !has(others, member) {
            push_copy(alloc, &mut kept, member)?;
        }
    }
    Ok(kept)
}
