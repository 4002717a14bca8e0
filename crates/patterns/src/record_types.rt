// The fields of records of a type.

ghost use Rattle.std.specs.Prelude.{◌≡◌, Some, option_map};
ghost use Rattle.pattern_meaning.specs.Ways.{fields_in, same_type};
ghost use Rattle.patterns.specs.Todos.{subject_tree};
ghost use Rattle.record_names.specs.Names.{record_type_of_names};

use crate::subject::Subject;
use vdm_kinds::Name;
use vdm_values::{Node, Value};

/// The fields of a record of this type.
pub(crate) fn fields<'t>(found: Option<(Name, Name)>, subject: Subject<'t>) -> Option<&'t [Value]>
    ensures { option_map (λ r. r.now) result ≡ fields_in (option_map record_type_of_names found) (subject_tree subject.entry) }
{
    let (wanted_class, wanted_name) = found?;
    match subject {
        Subject::Whole(value) => fields_of(wanted_class, wanted_name, value),
        Subject::Part(_) => None,
    }
}

fn fields_of(wanted_class: Name, wanted_name: Name, value: &Value) -> Option<&[Value]>
    ensures { option_map (λ r. r.now) result ≡ fields_in (Some (record_type_of_names (wanted_class, wanted_name))) value.now }
{
    match value.node() {
        Node::Rec {
            class,
            name,
            fields,
        } => {
            if is_of(*class, *name, wanted_class, wanted_name) {
                Some(fields.as_slice())
            } else {
                None
            }
        }
        _ => None,
    }
}

fn is_of(class: Name, name: Name, wanted_class: Name, wanted_name: Name) -> bool
    ensures { result ≡ same_type (record_type_of_names (wanted_class, wanted_name)) class name }
{
    wanted_class.0 == class.0 && wanted_name.0 == name.0
}
