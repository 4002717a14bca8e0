// Fields of record types, by the forms of their declared types.

ghost use Rattle.std.specs.Prelude.{◌≡◌, IfOk, is_some, map, option_map};
ghost use Rattle.std.specs.List.{find};
ghost use Rattle.std.specs.Borrow.{Bor};
ghost use Rattle.abstract_syntax.specs.Classes.{FieldTree, is_same_name};
ghost use Rattle.expr_tree.specs.declared.type_def.Field.{Field};
ghost use Rattle.expr_tree.specs.TypeDefView.{field_view, type_def_view};
ghost use Rattle.class_checks.specs.Shapes.{has_field};
ghost use Rattle.class_checks.specs.TypeNames.{field_form, fields_in, form_of};
ghost use Rattle.check_scopes.specs.Told.{spec_in};

use check_scopes::{SeenTypes, Setting};
use expr_tree::{Field, TypeBody, TypeDef, TypeNames};
use std::alloc::Global;
use type_forms::Form;
use vdm_kinds::{Name, OutOfMemory};

/// The form of a field of the record type of a class and a name. None where it has no such field.
pub fn field_form(
    alloc: Global,
    setting: Setting<'_>,
    class: Name,
    name: Name,
    field: Name,
) -> Result<Option<Form>, OutOfMemory>
    ensures { IfOk result (λ found. found ≡ field_form (spec_in setting.entry) class name field) }
{
    let types = SeenTypes {
        table: setting.table,
    };
    match types.type_def(class, None, name) {
        Some(definition) => form_in(alloc, setting, class, definition, field),
        None => Ok(None),
    }
}

fn form_in(
    alloc: Global,
    setting: Setting<'_>,
    class: Name,
    definition: &TypeDef,
    field: Name,
) -> Result<Option<Form>, OutOfMemory>
    ensures { IfOk result (λ found. found ≡ option_map (λ (f : FieldTree). form_of (spec_in setting.entry) class f.declared)
        (find (λ (f : FieldTree). is_same_name field f.name) (fields_in (type_def_view definition.now).body))) }
{
    match field_in(definition, field) {
        Some(found) => Ok(Some(setting.form_of(alloc, class, &found.declared)?)),
        None => Ok(None),
    }
}

fn field_in(definition: &TypeDef, field: Name) -> Option<&Field>
    ensures { option_map (λ (f : Bor Field). field_view f.now) result
        ≡ find (λ (f : FieldTree). is_same_name field f.name) (fields_in (type_def_view definition.now).body) }
{
    match &definition.body {
        TypeBody::Fields(fields) => field_among(fields.as_slice(), field),
        TypeBody::Same(_) => None,
    }
}

fn field_among(fields: &[Field], field: Name) -> Option<&Field>
    ensures { option_map (λ (f : Bor Field). field_view f.now) result
        ≡ find (λ (f : FieldTree). is_same_name field f.name) (map field_view fields.now) }
{
    for found in fields {
        if found.name.0 == field.0 {
            return Some(found);
        }
    }
    None
}

/// Whether the record type of a class and a name has a field.
pub fn has_field(setting: Setting<'_>, class: Name, name: Name, field: Name) -> bool
    ensures { result ≡ has_field (spec_in setting.entry) class name field }
{
    let types = SeenTypes {
        table: setting.table,
    };
    match types.type_def(class, None, name) {
        Some(definition) => is_in(definition, field),
        None => false,
    }
}

fn is_in(definition: &TypeDef, field: Name) -> bool
    ensures { result ≡ is_some (find (λ (f : FieldTree). is_same_name field f.name) (fields_in (type_def_view definition.now).body)) }
{
    match field_in(definition, field) {
        Some(_) => true,
        None => false,
    }
}
