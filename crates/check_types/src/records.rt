// Names of record types.

ghost use Rattle.std.specs.Prelude.{◌≡◌, IfOk, map, length, nat_eq, not, option_map};
ghost use Rattle.abstract_syntax.specs.Classes.{FieldTree};
ghost use Rattle.class_checks.specs.TypeNames.{fields_in, fields_of, form_of, record_faults, record_type};
ghost use Rattle.check_scopes.specs.Told.{first_in, spec_in, types_in};
ghost use Rattle.check_types.specs.Refusing.{made_faults, refused_as, refused_by};
ghost use Rattle.expr_tree.specs.TypeDefView.{field_view, type_def_view};
ghost use Rattle.record_names.specs.Names.{record_type_of_names};

use crate::names::{refuse_if, refuse_name};
use check_scopes::{Refusals, SeenTypes, Setting};
use expr_tree::{Field, TypeBody, TypeDef, TypeNames};
use std::alloc::Global;
use type_forms::Form;
use vdm_kinds::{Name, OutOfMemory, Place, SpecKind, TypeName};

/// The class and the name of the record type that a name makes here.
pub fn record_type(
    setting: Setting<'_>,
    type_name: TypeName,
) -> Result<Option<(Name, Name)>, OutOfMemory>
    ensures { IfOk result (λ made. option_map record_type_of_names made ≡ record_type (spec_in setting.entry) (types_in setting.entry) type_name) }
{
    let types = SeenTypes {
        table: setting.table,
    };
    record_names::record_type(setting.type_scope(), type_name, &types)
}

/// Refuses the name of a record type with so many parts: it has to stand for one that has so many fields. `place` is where the
/// whole name begins. Gives whether it is refused.
pub fn record_faults(
    setting: Setting<'_>,
    refusals: &mut Refusals,
    type_name: TypeName,
    count: usize,
    place: Place,
) -> Result<bool, OutOfMemory>
    ensures { IfOk result (λ refused. refused_by (first_in refusals.old) (record_faults (spec_in setting.entry) (types_in setting.entry) type_name count place) ≡ refused_as (first_in refusals.new) refused) }
{
    if refuse_name(setting, refusals, type_name, place) {
        return Ok(true);
    }
    let made = record_type(setting, type_name)?;
    Ok(refuse_made(setting, refusals, type_name, made, count, place))
}

// Refuses where no record type is made, or one of another number of fields.
fn refuse_made(
    setting: Setting<'_>,
    refusals: &mut Refusals,
    type_name: TypeName,
    made: Option<(Name, Name)>,
    count: usize,
    place: Place,
) -> bool
    ensures { refused_by (first_in refusals.old) (made_faults (spec_in setting.entry) (option_map record_type_of_names made) type_name count place) ≡ refused_as (first_in refusals.new) result }
{
    match made {
        Some((class, name)) => {
            let wrong = has_other_count(setting, class, name, count);
            refuse_if(refusals, wrong, SpecKind::WrongArity, place)
        }
        None => refuse_if(refusals, true, SpecKind::UnknownName, type_name.name_place),
    }
}

fn has_other_count(setting: Setting<'_>, class: Name, name: Name, count: usize) -> bool
    ensures { result ≡ not (nat_eq count (length (fields_of (spec_in setting.entry) class name))) }
{
    count != field_count(setting, class, name)
}

fn field_count(setting: Setting<'_>, class: Name, name: Name) -> usize
    ensures { result ≡ length (fields_of (spec_in setting.entry) class name) }
{
    let types = SeenTypes {
        table: setting.table,
    };
    match types.type_def(class, None, name) {
        Some(definition) => fields_in(definition).len(),
        None => 0,
    }
}

fn fields_in(definition: &TypeDef) -> &[Field]
    ensures { map field_view result.now ≡ fields_in (type_def_view definition.now).body }
{
    match &definition.body {
        TypeBody::Fields(fields) => fields.as_slice(),
        TypeBody::Same(_) => &[],
    }
}

/// The forms of the fields of the record type of a class and a name, in order.
pub fn field_forms(
    alloc: Global,
    setting: Setting<'_>,
    class: Name,
    name: Name,
) -> Result<Vec<Form>, OutOfMemory>
    ensures { IfOk result (λ forms. forms.items ≡ map (λ (f : FieldTree). form_of (spec_in setting.entry) class f.declared) (fields_of (spec_in setting.entry) class name)) }
{
    let types = SeenTypes {
        table: setting.table,
    };
    match types.type_def(class, None, name) {
        Some(definition) => forms_of(alloc, setting, class, fields_in(definition)),
        None => Ok(Vec::new(alloc)),
    }
}

fn forms_of(
    alloc: Global,
    setting: Setting<'_>,
    class: Name,
    fields: &[Field],
) -> Result<Vec<Form>, OutOfMemory>
    ensures { IfOk result (λ forms. forms.items ≡ map (λ (f : FieldTree). form_of (spec_in setting.entry) class f.declared) (map field_view fields.now)) }
{
    let mut forms = Vec::with_capacity(alloc, fields.len())?;
    for field in fields {
        forms.push(setting.form_of(alloc, class, &field.declared)?)?;
    }
    Ok(forms)
}
