// Sequences one after another.

ghost use Rattle.std.specs.Prelude.{◌≡◌, ◌++◌};
ghost use Rattle.value_operators.specs.Outcomes.{Gives, on_sequences, sized as sized_outcome};
ghost use Rattle.value_operators.specs.Sequences.{sequence_value, joined as joined_items, on_sequence_of_sequences, joined_all as joined_parts, of_all_sequences};

use std::alloc::Global;
use value_results::{push_copies, sized};
use vdm_kinds::{Halt, RunFault};
use vdm_values::{Node, Value};

/// The items of the one, then those of the other.
pub(crate) fn joined(alloc: Global, a: &Value, b: &Value) -> Result<Value, Halt<RunFault>>
    ensures { Gives result (on_sequences joined_items a.now b.now) }
{
    match (a.node(), b.node()) {
        (Node::Seq(a), Node::Seq(b)) => both(alloc, a.as_slice(), b.as_slice()),
        _ => Err(Halt::Of(RunFault::TypeFault)),
    }
}

fn both(alloc: Global, a: &[Value], b: &[Value]) -> Result<Value, Halt<RunFault>>
    ensures { Gives result (joined_items a.now b.now) }
{
    let mut items = Vec::new(alloc);
    push_copies(alloc, &mut items, a)?;
    push_copies(alloc, &mut items, b)?;
    sized(Value::new(Node::Seq(items)))
}

/// The items of all sequences, one after another.
pub(crate) fn joined_all(alloc: Global, a: &Value) -> Result<Value, Halt<RunFault>>
    ensures { Gives result (on_sequence_of_sequences joined_parts a.now) }
{
    match a.node() {
        Node::Seq(parts) => all_parts(alloc, parts.as_slice()),
        _ => Err(Halt::Of(RunFault::TypeFault)),
    }
}

fn all_parts(alloc: Global, parts: &[Value]) -> Result<Value, Halt<RunFault>>
    ensures { Gives result (of_all_sequences joined_parts parts.now) }
{
    let mut items = Vec::new(alloc);
    for part in parts {
        let Node::Seq(others) = part.node() else {
            return Err(Halt::Of(RunFault::TypeFault));
        };
        push_copies(alloc, &mut items, others.as_slice())?;
    }
    sized(Value::new(Node::Seq(items)))
}
