// Members and subsets.

ghost use Rattle.std.specs.Prelude.{◌≡◌, not};
ghost use Rattle.std.specs.List.{list_all};
ghost use Rattle.std.specs.List.Sorted.{IsStrictlySortedBy};
ghost use Rattle.abstract_syntax.specs.ValueOrder.{value_order};
ghost use Rattle.value_operators.specs.Members.{has as has_member};
ghost use Rattle.value_operators.specs.Outcomes.{Gives, on_set};
ghost use Rattle.value_operators.specs.Numbers.{truth as truth_of};

use crate::plain::truth;
use value_results::has;
use vdm_kinds::{Halt, RunFault};
use vdm_values::{Node, Value};

/// Whether the value is a member of the set.
pub(crate) fn in_set(value: &Value, set: &Value) -> Result<Value, Halt<RunFault>>
    ensures { Gives result (on_set (λ ws. truth_of (has_member ws value.now)) set.now) }
{
    match set.node() {
        Node::Set(members) => Ok(truth(has(members.as_slice(), value))),
        _ => Err(Halt::Of(RunFault::TypeFault)),
    }
}

/// Whether it is none.
pub(crate) fn not_in_set(value: &Value, set: &Value) -> Result<Value, Halt<RunFault>>
    ensures { Gives result (on_set (λ ws. truth_of (not (has_member ws value.now))) set.now) }
{
    match set.node() {
        Node::Set(members) => Ok(truth(!has(members.as_slice(), value))),
        _ => Err(Halt::Of(RunFault::TypeFault)),
    }
}

/// Whether the second list has every member of the first.
pub(crate) fn is_subset(members: &[Value], others: &[Value]) -> bool
    requires { IsStrictlySortedBy value_order others.now }
    ensures { result ≡ list_all (has_member others.now) members.now }
{
    for member in members {
        if !has(others, member) {
            return false;
        }
    }
    true
}
