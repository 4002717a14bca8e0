// Records of a type.

use expr_tree::{TypeBody, TypeNames};
use vdm_kinds::{Name, TypeName};
use vdm_values::{Node, Value};

/// The fields of a record of the type for which the name stands in a class. None of another value, and where the name stands for no type
/// with fields of its own.
pub(crate) fn fields<'t, N: TypeNames>(
    value: &'t Value,
    type_name: TypeName,
    scope: Name,
    names: &N,
) -> Option<&'t [Value]> {
    let (wanted_class, wanted_name) = record_type(type_name, scope, names)?;
    match value.node() {
        Node::Rec {
            class,
            name,
            fields,
        } => {
            if *class == wanted_class && *name == wanted_name {
                Some(fields.as_slice())
            } else {
                None
            }
        }
        _ => None,
    }
}

// The class and the name of a record type.
fn record_type<N: TypeNames>(type_name: TypeName, scope: Name, names: &N) -> Option<(Name, Name)> {
    let definition = names.type_def(scope, type_name.class, type_name.name)?;
    match &definition.body {
        TypeBody::Fields(_) => Some((definition.class, definition.name)),
        TypeBody::Same(_) => None,
    }
}
