// Fields of records that are changed.

ghost use Rattle.std.specs.Prelude.{◌≡◌, IfOk};
ghost use Rattle.std.specs.List.{list_all};
ghost use Rattle.class_checks.specs.Shapes.{changed_field, has_all, has_field};
ghost use Rattle.form_meaning.specs.Forms.{record_alt};
ghost use Rattle.type_forms.specs.Tree.{alt_of};
ghost use Rattle.check_fields.specs.Below.check_scopes.specs.Told.{spec_in};
ghost use Rattle.check_shapes.specs.ShapeView.{names_of};

use check_fields::handed::check_scopes::Setting;
use check_fields::{field_form, has_field};
use expr_tree::FieldValue;
use std::alloc::Global;
use type_forms::{Alt, Form};
use vdm_kinds::{Name, OutOfMemory};

/// Whether a kind of values has all these fields.
pub(crate) fn has_all(setting: Setting<'_>, fields: &[FieldValue], alternative: &Alt) -> bool
    ensures { result ≡ has_all (spec_in setting.entry) (names_of fields.now) (alt_of alternative.now) }
{
    match alternative {
        Alt::Record { class, name } => has_each(setting, *class, *name, fields),
        _ => false,
    }
}

fn has_each(setting: Setting<'_>, class: Name, name: Name, fields: &[FieldValue]) -> bool
    ensures { result ≡ list_all (has_field (spec_in setting.entry) class name) (names_of fields.now) }
{
    for field in fields {
        if !has_field(setting, class, name, field.name) {
            return false;
        }
    }
    true
}

/// The form of a field of a kind of values that has all fields that are changed.
pub(crate) fn changed_field(
    alloc: Global,
    setting: Setting<'_>,
    fields: &[FieldValue],
    field: Name,
    alternative: &Alt,
) -> Result<Form, OutOfMemory>
    ensures { IfOk result (λ f. f ≡ changed_field (spec_in setting.entry) (names_of fields.now) field (alt_of alternative.now)) }
{
    match alternative {
        Alt::Record { class, name } => field_of_all(alloc, setting, fields, field, *class, *name),
        _ => Ok(Form::nothing()),
    }
}

fn field_of_all(
    alloc: Global,
    setting: Setting<'_>,
    fields: &[FieldValue],
    field: Name,
    class: Name,
    name: Name,
) -> Result<Form, OutOfMemory>
    ensures { IfOk result (λ f. f ≡ changed_field (spec_in setting.entry) (names_of fields.now) field (record_alt class name)) }
{
    if !has_each(setting, class, name, fields) {
        return Ok(Form::nothing());
    }
    match field_form(alloc, setting, class, name, field)? {
        Some(form) => Ok(form),
        None => Ok(Form::nothing()),
    }
}
