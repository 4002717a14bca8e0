// Booleans.

ghost use Rattle.std.specs.Prelude.{◌≡◌};
ghost use Rattle.abstract_syntax.specs.Values.{boolean};
ghost use Rattle.value_operators.specs.Numbers.{truth_one, truth_two};

use vdm_kinds::{Operator, RunFault};
use vdm_values::{Node, Value};

/// A truth as a value.
pub(crate) fn truth(p: bool) -> Value
    ensures { result ≡ boolean p }
{
    Value::new(Node::Bool(p))
}

/// What an operator gives of a Boolean.
pub(crate) fn unary_truth(operator: Operator, p: bool) -> Result<Value, RunFault>
    ensures { result ≡ truth_one operator p }
{
    match operator {
        Operator::Not => Ok(truth(!p)),
        _ => Err(RunFault::TypeFault),
    }
}

/// What an operator gives of two Booleans.
pub(crate) fn binary_truth(operator: Operator, p: bool, q: bool) -> Result<Value, RunFault>
    ensures { result ≡ truth_two operator p q }
{
    match operator {
        Operator::Equivalent => Ok(truth(p == q)),
        _ => Err(RunFault::TypeFault),
    }
}
