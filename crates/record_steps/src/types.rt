// Record types, by the table of the classes.

ghost use Rattle.std.specs.Prelude.{◌≡◌, IfOk, List, map, option_map};
ghost use Rattle.std.specs.Borrow.{Bor};
ghost use Rattle.expr_tree.specs.declared.type_def.Field.{Field};
ghost use Rattle.expr_tree.specs.TypeDefView.{field_view, type_body_view};
ghost use Rattle.record_names.specs.Names.{record_type_of_names};
ghost use Rattle.spec_table.specs.Tables.{table_spec};
ghost use Rattle.node_meaning.specs.Envs.{type_scope};
ghost use Rattle.node_meaning.specs.Records.{fields_in, fields_of, record_type};

use expr_tree::{Field, TypeBody, TypeNames};
use spec_table::ClassTable;
use vdm_kinds::{Name, OutOfMemory, TypeName};

/// The class and the name of the record type that a name stands for in the class of a node.
pub(crate) fn record_type(
    table: &ClassTable,
    scope: Option<Name>,
    type_name: TypeName,
) -> Result<Option<(Name, Name)>, OutOfMemory>
    ensures { IfOk result (λ found. option_map record_type_of_names found ≡ record_type (table_spec table.now) scope type_name) }
{
    record_names::record_type(type_scope(scope), type_name, table)
}

/// The class by which the names of types are found: `IO` where the node stands in none.
fn type_scope(scope: Option<Name>) -> Name
    ensures { result ≡ type_scope scope }
{
    match scope {
        Some(class) => class,
        None => Name::IO,
    }
}

/// The fields of the record type of a class and a name, in order. None where there is no such type.
pub fn fields_of(table: &ClassTable, class: Name, name: Name) -> Option<&[Field]>
    ensures { option_map (λ (fields : Bor (List Field)). map field_view fields.now) result ≡ fields_of (table_spec table.now) class name }
{
    let definition = table.type_def(class, None, name)?;
    fields_in(&definition.body)
}

fn fields_in(body: &TypeBody) -> Option<&[Field]>
    ensures { option_map (λ (fields : Bor (List Field)). map field_view fields.now) result ≡ fields_in (type_body_view body.now) }
{
    match body {
        TypeBody::Fields(fields) => Some(fields.as_slice()),
        TypeBody::Same(_) => None,
    }
}
