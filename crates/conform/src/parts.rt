// The parts of values.

ghost use Rattle.std.specs.Prelude.{◌≡◌, ◌&&◌, option_map};
ghost use Rattle.abstract_syntax.specs.Classes.{is_same_name};
ghost use Rattle.conform.specs.Frames.{elements_in, items_in, entries_in, components_in, fields_in};

use vdm_kinds::Name;
use vdm_values::{Node, Value};

/// The elements of a set.
#[tactic(auto, using(crate::proofs::Lists::parts))]
pub(crate) fn elements(value: &Value) -> Option<&[Value]>
    ensures { option_map (λ r. r.now) result ≡ elements_in value.now }
{
    match value.node() {
        Node::Set(elements) => Some(elements.as_slice()),
        _ => None,
    }
}

/// The items of a sequence.
#[tactic(auto, using(crate::proofs::Lists::parts))]
pub(crate) fn items(value: &Value) -> Option<&[Value]>
    ensures { option_map (λ r. r.now) result ≡ items_in value.now }
{
    match value.node() {
        Node::Seq(items) => Some(items.as_slice()),
        _ => None,
    }
}

/// The entries of a map.
#[tactic(auto, using(crate::proofs::Lists::parts))]
pub(crate) fn entries(value: &Value) -> Option<&[(Value, Value)]>
    ensures { option_map (λ r. r.now) result ≡ entries_in value.now }
{
    match value.node() {
        Node::Map(entries) => Some(entries.as_slice()),
        _ => None,
    }
}

/// The parts of a tuple.
#[tactic(auto, using(crate::proofs::Lists::parts))]
pub(crate) fn components(value: &Value) -> Option<&[Value]>
    ensures { option_map (λ r. r.now) result ≡ components_in value.now }
{
    match value.node() {
        Node::Tuple(parts) => Some(parts.as_slice()),
        _ => None,
    }
}

/// The fields of a record of the type of this class and name.
pub(crate) fn fields(wanted_class: Name, wanted: Name, value: &Value) -> Option<&[Value]>
    ensures { option_map (λ r. r.now) result ≡ fields_in wanted_class wanted value.now }
{
    match value.node() {
        Node::Rec {
            class,
            name,
            fields,
        } => {
            if is_of(wanted_class, wanted, *class, *name) {
                Some(fields.as_slice())
            } else {
                None
            }
        }
        _ => None,
    }
}

fn is_of(wanted_class: Name, wanted: Name, class: Name, name: Name) -> bool
    ensures { result ≡ is_same_name wanted_class class && is_same_name wanted name }
{
    wanted_class.0 == class.0 && wanted.0 == name.0
}
