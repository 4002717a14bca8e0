// Steps into a field of a record.

ghost use Rattle.std.specs.Prelude.{◌≡◌, ◌∷◌, [], IfOk};
ghost use Rattle.vdm_kinds.specs.declared.place.Place.{Place as PlaceOf};
ghost use Rattle.abstract_syntax.specs.Statements.{field_of};
ghost use Rattle.form_meaning.specs.Forms.{FormTree, joined, no_form};
ghost use Rattle.form_meaning.specs.Parts.{taken, taken_of};
ghost use Rattle.class_checks.specs.Results.{Checked};
ghost use Rattle.class_checks.specs.Shapes.{any_or_some, field_or_none, some_alt};
ghost use Rattle.spec_checks.specs.Targets.{field_taken, has_this_field, stepped, steps_in};
ghost use Rattle.type_forms.specs.Tree.{alt_of, alt_trees};
ghost use Rattle.stmt_exprs.specs.Below.check_scopes.specs.Told.{first_in, spec_in};
ghost use Rattle.stmt_exprs.specs.Below.check_frames.specs.Meant.{spec_here};
ghost use Rattle.stmt_exprs.specs.Below.stmt_scopes.specs.Standing.{stands_here};
ghost use Rattle.stmt_exprs.specs.Below.stmt_scopes.specs.Refused.{refused};

use std::alloc::Global;
use stmt_exprs::handed::check_fields::{field_form, has_field};
use stmt_exprs::handed::check_scopes::{Refusals, Setting};
use stmt_exprs::handed::stmt_scopes::Stands;
use type_forms::{Alt, Form, Node, joined};
use vdm_kinds::{Name, OutOfMemory, Place, SpecKind};

/// The form of a field. Where no value of the form is a record that has it, that is refused at the place.
pub(crate) fn field_behind(
    stands: Stands<'_>,
    place: Place,
    form: Form,
    name: Name,
    refusals: &mut Refusals,
) -> Result<Form, OutOfMemory>
    ensures { (name_place step_place : PlaceOf) → IfOk result (λ found. (rest : FormTree → Checked) → refused (first_in refusals.old) (steps_in (spec_here stands.entry.here) (stands_here stands.entry) place form (field_of name name_place step_place ∷ []) rest) ≡ refused (first_in refusals.new) (rest found)) }
{
    let setting = stands.here.setting;
    let fits = may_have_field(setting, name, &form);
    refusals.refuse_if(!fits, SpecKind::NoCommonValue, place);
    field_of_fitting(stands.here.alloc, setting, fits, name, &form)
}

// Whether some value of a form may be a record with a field of this name.
fn may_have_field(setting: Setting<'_>, name: Name, form: &Form) -> bool
    ensures { result ≡ any_or_some (has_this_field (spec_in setting.entry) name) form.now }
{
    match form.node() {
        Node::Any => true,
        Node::Nothing => false,
        Node::OneOf(alternatives) => some_has_field(setting, name, alternatives.as_slice()),
    }
}

fn some_has_field(setting: Setting<'_>, name: Name, alternatives: &[Alt]) -> bool
    ensures { result ≡ some_alt (has_this_field (spec_in setting.entry) name) (alt_trees alternatives.now) }
{
    for alternative in alternatives {
        if alternative_has_field(setting, name, alternative) {
            return true;
        }
    }
    false
}

fn alternative_has_field(setting: Setting<'_>, name: Name, alternative: &Alt) -> bool
    ensures { result ≡ has_this_field (spec_in setting.entry) name (alt_of alternative.now) }
{
    match alternative {
        Alt::Record {
            class,
            name: record,
        } => has_field(setting, *class, *record, name),
        _ => false,
    }
}

// The form of the field, or any where no value fits.
fn field_of_fitting(
    alloc: Global,
    setting: Setting<'_>,
    fits: bool,
    name: Name,
    form: &Form,
) -> Result<Form, OutOfMemory>
    ensures { IfOk result (λ found. found ≡ stepped (spec_in setting.entry) fits (taken (field_taken (spec_in setting.entry) name) form.now)) }
{
    if fits {
        let field = field_taken(alloc, setting, name, form)?;
        setting.opened(alloc, &field)
    } else {
        Ok(Form::any())
    }
}

// What is known of the field.
fn field_taken(
    alloc: Global,
    setting: Setting<'_>,
    name: Name,
    form: &Form,
) -> Result<Form, OutOfMemory>
    ensures { IfOk result (λ field. field ≡ taken (field_taken (spec_in setting.entry) name) form.now) }
{
    match form.node() {
        Node::Any => Ok(Form::any()),
        Node::Nothing => Ok(Form::nothing()),
        Node::OneOf(alternatives) => all_taken(alloc, setting, name, alternatives.as_slice()),
    }
}

fn all_taken(
    alloc: Global,
    setting: Setting<'_>,
    name: Name,
    alternatives: &[Alt],
) -> Result<Form, OutOfMemory>
    ensures { IfOk result (λ field. field ≡ taken_of (field_taken (spec_in setting.entry) name) no_form (alt_trees alternatives.now)) }
{
    let mut known = Form::nothing();
    for alternative in alternatives {
        known = with_field(alloc, setting, name, known, alternative)?;
    }
    Ok(known)
}

// What is known, and what is known of the field of a kind of values.
fn with_field(
    alloc: Global,
    setting: Setting<'_>,
    name: Name,
    known: Form,
    alternative: &Alt,
) -> Result<Form, OutOfMemory>
    ensures { IfOk result (λ field. field ≡ joined known (field_taken (spec_in setting.entry) name (alt_of alternative.now))) }
{
    let found = field_in(alloc, setting, name, alternative)?;
    match found {
        Some(form) => joined(alloc, known, &form),
        None => Ok(known),
    }
}

// The form of the field of a kind of values. None where they are no records that have it.
fn field_in(
    alloc: Global,
    setting: Setting<'_>,
    name: Name,
    alternative: &Alt,
) -> Result<Option<Form>, OutOfMemory>
    ensures { IfOk result (λ found. field_or_none found ≡ field_taken (spec_in setting.entry) name (alt_of alternative.now)) }
{
    match alternative {
        Alt::Record {
            class,
            name: record,
        } => field_form(alloc, setting, *class, *record, name),
        _ => Ok(None),
    }
}
