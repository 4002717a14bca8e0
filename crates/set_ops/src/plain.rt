// Outcomes that take no memory.

ghost use Rattle.std.specs.Prelude.{◌≡◌, Ok, pos, length};
ghost use Rattle.abstract_syntax.specs.Values.{boolean, number};
ghost use Rattle.value_operators.specs.Outcomes.{Gives, on_set};

use vdm_kinds::{Halt, RunFault};
use vdm_values::{Node, Value};

/// An outcome that was given.
pub(crate) fn given(outcome: Result<Value, RunFault>) -> Result<Value, Halt<RunFault>>
    ensures { Gives result outcome }
{
    match outcome {
        Ok(value) => Ok(value),
        Err(fault) => Err(Halt::Of(fault)),
    }
}

/// A truth as a value.
pub(crate) fn truth(p: bool) -> Value
    ensures { result ≡ boolean p }
{
    Value::new(Node::Bool(p))
}

/// How many members a set has.
pub(crate) fn card(a: &Value) -> Result<Value, Halt<RunFault>>
    ensures { Gives result (on_set (λ vs. Ok (number (pos (length vs)))) a.now) }
{
    match a.node() {
        Node::Set(members) => Ok(Value::new(Node::Int(members.as_slice().len() as i128))),
        _ => Err(Halt::Of(RunFault::TypeFault)),
    }
}
