// The forms of the fields of records.

ghost use Rattle.std.specs.Prelude.{◌≡◌, Some, drop, IfOk};
ghost use Rattle.class_checks.specs.Patterns.{first_form, made_fields, record_parts};
ghost use Rattle.check_types.specs.Below.check_scopes.specs.Told.{spec_in, types_in};

use check_types::handed::check_scopes::Setting;
use check_types::{field_forms, record_type};
use std::alloc::Global;
use type_forms::{Alt, Form};
use vdm_kinds::{Name, OutOfMemory, TypeName};

/// The forms of the fields of a record pattern; what no field stands for may have any form.
pub(crate) fn record_parts(
    alloc: Global,
    setting: Setting<'_>,
    form: &Form,
    type_name: TypeName,
) -> Result<Vec<Form>, OutOfMemory>
    ensures { IfOk result (λ forms. forms.items ≡ record_parts (spec_in setting.entry) (types_in setting.entry) form.now type_name) }
{
    match record_type(setting, type_name)? {
        Some((class, name)) => made_fields(alloc, setting, form, class, name),
        None => Ok(Vec::new(alloc)),
    }
}

// The forms of the fields of a record of a type, where the form is that of some such record.
fn made_fields(
    alloc: Global,
    setting: Setting<'_>,
    form: &Form,
    class: Name,
    name: Name,
) -> Result<Vec<Form>, OutOfMemory>
    ensures { IfOk result (λ forms. forms.items ≡ made_fields (spec_in setting.entry) form.now (Some (record { class = class; name = name }))) }
{
    let wanted = Form::only(alloc, Alt::Record { class, name })?;
    if setting.meets(form, &wanted) {
        field_forms(alloc, setting, class, name)
    } else {
        Ok(Vec::new(alloc))
    }
}

/// The form of the field with this number; any form where there is none.
pub(crate) fn field_form(forms: &[Form], index: usize) -> Result<Form, OutOfMemory>
    ensures { IfOk result (λ f. f ≡ first_form (drop index forms.now)) }
{
    match forms.get(index) {
        Some(form) => form.copy(),
        None => Ok(Form::any()),
    }
}
