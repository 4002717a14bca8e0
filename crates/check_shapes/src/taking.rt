// What is taken of each kind of values of a form, beyond what other crates take.

ghost use Rattle.std.specs.Prelude.{◌≡◌, option_map, if◌then◌else◌, IfOk};
ghost use Rattle.std.specs.Borrow.{Bor};
ghost use Rattle.form_meaning.specs.Forms.{FormTree, no_form, joined};
ghost use Rattle.form_meaning.specs.Parts.{taken, taken_of};
ghost use Rattle.class_checks.specs.Shapes.{any_or_some, has_all, has_part, kept, part_numbered, some_alt};
ghost use Rattle.type_forms.specs.Taking.{form_or_none};
ghost use Rattle.type_forms.specs.Tree.{alt_of, alt_trees};
ghost use Rattle.check_fields.specs.Below.check_scopes.specs.Told.{spec_in};
ghost use Rattle.check_shapes.specs.Numbered.{is_within, numbered};
ghost use Rattle.check_shapes.specs.ShapeView.{names_of};
ghost use Rattle.check_shapes.specs.Takings.{fits_by, take_by};

use crate::records::{changed_field, has_all};
use check_fields::handed::check_scopes::Setting;
use expr_tree::FieldValue;
use std::alloc::Global;
use type_forms::{Alt, Form, Node, joined};
use vdm_kinds::{Name, OutOfMemory};

/// What is taken of a kind of values.
#[derive(Clone, Copy)]
pub(crate) enum Taking<'t> {
    /// The part of a tuple that has this number.
    Numbered(i128),
    /// The record that has all these fields.
    Kept(&'t [FieldValue]),
    /// A field of a record that has all these.
    Field(&'t [FieldValue], Name),
}

/// Whether something is to be taken of a form.
pub(crate) fn fits_some(setting: Setting<'_>, taking: Taking<'_>, form: &Form) -> bool
    ensures { result ≡ any_or_some (fits_by (spec_in setting.entry) taking.entry) form.now }
{
    match form.node() {
        Node::Any => true,
        Node::Nothing => false,
        Node::OneOf(alternatives) => some_fits(setting, taking, alternatives.as_slice()),
    }
}

fn some_fits(setting: Setting<'_>, taking: Taking<'_>, alternatives: &[Alt]) -> bool
    ensures { result ≡ some_alt (fits_by (spec_in setting.entry) taking.entry) (alt_trees alternatives.now) }
{
    for alternative in alternatives {
        if alt_fits(setting, taking, alternative) {
            return true;
        }
    }
    false
}

fn alt_fits(setting: Setting<'_>, taking: Taking<'_>, alternative: &Alt) -> bool
    ensures { result ≡ fits_by (spec_in setting.entry) taking.entry (alt_of alternative.now) }
{
    match taking {
        Taking::Numbered(number) => has_part(number, alternative),
        Taking::Kept(fields) => has_all(setting, fields, alternative),
        Taking::Field(fields, _) => has_all(setting, fields, alternative),
    }
}

/// What is taken of a form.
pub(crate) fn taken_by(
    alloc: Global,
    setting: Setting<'_>,
    taking: Taking<'_>,
    form: &Form,
) -> Result<Form, OutOfMemory>
    ensures { IfOk result (λ f. f ≡ taken (take_by (spec_in setting.entry) taking.entry) form.now) }
{
    match form.node() {
        Node::Any => Ok(Form::any()),
        Node::Nothing => Ok(Form::nothing()),
        Node::OneOf(alternatives) => all_taken(alloc, setting, taking, alternatives.as_slice()),
    }
}

fn all_taken(
    alloc: Global,
    setting: Setting<'_>,
    taking: Taking<'_>,
    alternatives: &[Alt],
) -> Result<Form, OutOfMemory>
    ensures { IfOk result (λ f. f ≡ taken_of (take_by (spec_in setting.entry) taking.entry) no_form (alt_trees alternatives.now)) }
{
    let mut known = Form::nothing();
    for alternative in alternatives {
        known = with_taken(alloc, setting, taking, known, alternative)?;
    }
    Ok(known)
}

// What is known, and what is taken of a kind of values.
fn with_taken(
    alloc: Global,
    setting: Setting<'_>,
    taking: Taking<'_>,
    known: Form,
    alternative: &Alt,
) -> Result<Form, OutOfMemory>
    ensures { IfOk result (λ f. f ≡ joined known (take_by (spec_in setting.entry) taking.entry (alt_of alternative.now))) }
{
    match taking {
        Taking::Numbered(number) => with_part(alloc, number, known, alternative),
        Taking::Kept(fields) => with_kept(alloc, setting, fields, known, alternative),
        Taking::Field(fields, field) => {
            let form = changed_field(alloc, setting, fields, field, alternative)?;
            joined(alloc, known, &form)
        }
    }
}

fn with_part(
    alloc: Global,
    number: i128,
    known: Form,
    alternative: &Alt,
) -> Result<Form, OutOfMemory>
    ensures { IfOk result (λ f. f ≡ joined known (part_numbered number (alt_of alternative.now))) }
{
    match part_numbered(number, alternative) {
        Some(part) => joined(alloc, known, part),
        None => Ok(known),
    }
}

fn with_kept(
    alloc: Global,
    setting: Setting<'_>,
    fields: &[FieldValue],
    known: Form,
    alternative: &Alt,
) -> Result<Form, OutOfMemory>
    ensures { IfOk result (λ f. f ≡ joined known (kept (spec_in setting.entry) (names_of fields.now) (alt_of alternative.now))) }
{
    if has_all(setting, fields, alternative) {
        let kept = Form::only(alloc, alternative.copy(alloc)?)?;
        joined(alloc, known, &kept)
    } else {
        Ok(known)
    }
}

// ---- tuples

fn has_part(number: i128, alternative: &Alt) -> bool
    ensures { result ≡ has_part number (alt_of alternative.now) }
{
    match alternative {
        Alt::Tuple(parts) => is_within(number, parts.len()),
        _ => false,
    }
}

fn is_within(number: i128, count: usize) -> bool
    ensures { result ≡ is_within count number }
{
    number >= 1 && number <= count as i128
}

fn part_numbered(number: i128, alternative: &Alt) -> Option<&Form>
    ensures { form_or_none (option_map (λ (f : Bor FormTree). f.now) result) ≡ part_numbered number (alt_of alternative.now) }
{
    match alternative {
        Alt::Tuple(parts) => part_of(number, parts.as_slice()),
        _ => None,
    }
}

fn part_of(number: i128, parts: &[Form]) -> Option<&Form>
    ensures { option_map (λ (f : Bor FormTree). f.now) result ≡ numbered parts.now number }
{
    if number < 1 || number > parts.len() as i128 {
        return None;
    }
    Some(&parts[(number - 1) as usize])
}
