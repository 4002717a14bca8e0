// Values that are looked at whole.

ghost use Rattle.std.specs.Prelude.{◌≡◌, IfOk};
ghost use Rattle.type_meaning.specs.Shapes.{is_quote, is_nil, is_object_of, has_distinct_values};
ghost use Rattle.conform.specs.Turned.{can_be_turned};

use expr_tree::TypeNames;
use map_ops::unary;
use std::alloc::Global;
use vdm_kinds::{Halt, Name, Operator, OutOfMemory, RunFault};
use vdm_values::{Node, Value};

/// Whether the value is the quote of this name.
pub(crate) fn is_quote(name: Name, value: &Value) -> bool
    ensures { result ≡ is_quote name value.now }
{
    match value.node() {
        Node::Quote(other) => name.0 == other.0,
        _ => false,
    }
}

pub(crate) fn is_nil(value: &Value) -> bool
    ensures { result ≡ is_nil value.now }
{
    match value.node() {
        Node::Nil => true,
        _ => false,
    }
}

/// Whether the value is an object of the class or of one below it.
pub(crate) fn is_object_of<N: TypeNames>(class: Name, value: &Value, names: &N) -> bool
    ensures { result ≡ is_object_of (N.found names.now) (N.descends names.now) class value.now }
{
    match value.node() {
        Node::Object {
            number: _,
            class: own,
        } => names.is_kind_of(*own, class),
        _ => false,
    }
}

/// Whether no two keys of a map have one value.
pub(crate) fn has_distinct_values(alloc: Global, value: &Value) -> Result<bool, OutOfMemory>
    ensures { IfOk result (λ passes. passes ≡ has_distinct_values value.now) }
{
    match value.node() {
        Node::Map(_) => is_turned(alloc, value),
        _ => Ok(false),
    }
}

/// Whether a map can be turned.
fn is_turned(alloc: Global, value: &Value) -> Result<bool, OutOfMemory>
    ensures { IfOk result (λ passes. passes ≡ can_be_turned value.now) }
{
    match unary(alloc, Operator::Inverse, value) {
        Ok(_turned) => Ok(true),
        Err(Halt::Of(RunFault::MapConflict)) => Ok(false),
        Err(Halt::Of(_)) => Ok(true),
        Err(Halt::OutOfMemory) => Err(OutOfMemory),
    }
}
