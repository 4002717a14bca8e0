// What the next part of a node has to meet.

ghost use Rattle.std.specs.Prelude.{◌≡◌, [], ◌∷◌, ◌++◌, Some, map, IfOk};
ghost use Rattle.class_checks.specs.Expressions.{want_faults};
ghost use Rattle.class_checks.specs.Operators.{truth};
ghost use Rattle.class_checks.specs.Results.{first_among};
ghost use Rattle.class_checks.specs.Shapes.{changed_want, field_want, fits, like, name_behind, operand_want, part_faults, seen_as, subsequence_want, want_behind, want_of};
ghost use Rattle.class_checks.specs.TypeNames.{meets};
ghost use Rattle.type_forms.specs.Tree.{form_trees};
ghost use Rattle.check_fields.specs.Below.check_scopes.specs.Told.{first_in, spec_in};
ghost use Rattle.check_shapes.specs.ShapeView.{names_of, seen_view, shape_view};

use crate::shape::{Seen, Shape};
use crate::taking::{Taking, fits_some, taken_by};
use check_fields::handed::check_scopes::{Refusals, Setting};
use check_operators::{Kind, is_like, left_want, operand_want, subsequence_want};
use expr_tree::FieldValue;
use std::alloc::Global;
use type_forms::Form;
use vdm_kinds::{Name, OutOfMemory, Place, Sign, SpecKind};

/// Notes where a value does not fit that has to be true or false.
pub fn want_truth(setting: Setting<'_>, place: Place, form: &Form, refusals: &mut Refusals)
    ensures { first_in refusals.new ≡ first_among (first_in refusals.old) (want_faults (spec_in setting.entry) truth place form.now) }
{
    refusals.refuse_if(
        !is_like(setting, form, Kind::Truth),
        SpecKind::NoCommonValue,
        place,
    );
}

/// Notes where the next part does not fit, and gives all parts so far.
pub fn next_part(
    alloc: Global,
    setting: Setting<'_>,
    shape: &Shape<'_>,
    done: Vec<Seen>,
    place: Place,
    form: Form,
    refusals: &mut Refusals,
) -> Result<Vec<Seen>, OutOfMemory>
    ensures { IfOk result (λ more.
        (map seen_view more.items
        ≡ map seen_view done.items ++ seen_as (spec_in setting.entry) (want_of (spec_in setting.entry) (shape_view shape.now) (map seen_view done.items)) form ∷ [])
        × (first_in refusals.new
        ≡ first_among (first_in refusals.old) (part_faults (spec_in setting.entry) (want_of (spec_in setting.entry) (shape_view shape.now) (map seen_view done.items)) place form))) }
{
    let fits = fits_next(alloc, setting, shape, done.as_slice(), &form)?;
    refusals.refuse_if(!fits, SpecKind::NoCommonValue, place);
    let mut more = done;
    more.push(Seen { form, fits })?;
    Ok(more)
}

// Whether a form is what the next part has to meet.
fn fits_next(
    alloc: Global,
    setting: Setting<'_>,
    shape: &Shape<'_>,
    done: &[Seen],
    form: &Form,
) -> Result<bool, OutOfMemory>
    ensures { IfOk result (λ b. b ≡ fits (spec_in setting.entry) (want_of (spec_in setting.entry) (shape_view shape.now) (map seen_view done.now)) form.now) }
{
    match shape {
        Shape::Prefix(sign) => Ok(is_like(setting, form, left_want(*sign))),
        Shape::Operator(sign) => Ok(fits_operand(setting, *sign, done.len(), form)),
        Shape::Range => Ok(is_like(setting, form, Kind::Number)),
        Shape::Set => Ok(is_like(setting, form, Kind::Any)),
        Shape::Sequence => Ok(is_like(setting, form, Kind::Any)),
        Shape::Map => Ok(is_like(setting, form, Kind::Any)),
        Shape::Tuple => Ok(is_like(setting, form, Kind::Any)),
        Shape::Token => Ok(is_like(setting, form, Kind::Any)),
        Shape::Test => Ok(is_like(setting, form, Kind::Any)),
        Shape::Condition => Ok(is_like(setting, form, Kind::Truth)),
        Shape::Call(wants, _) => Ok(fits_argument(setting, wants.as_slice(), done.len(), form)),
        Shape::Part(number) => Ok(fits_some(setting, Taking::Numbered(*number), form)),
        Shape::Subsequence => Ok(fits_bound(setting, done.len(), form)),
        Shape::Changed(fields) => fits_changed(alloc, setting, fields.as_slice(), done, form),
    }
}

fn fits_operand(setting: Setting<'_>, sign: Sign, others: usize, form: &Form) -> bool
    ensures { result ≡ meets (spec_in setting.entry) form.now (operand_want sign others) }
{
    is_like(setting, form, operand_want(sign, others))
}

// A sequence, and the numbers between which it is cut.
fn fits_bound(setting: Setting<'_>, others: usize, form: &Form) -> bool
    ensures { result ≡ meets (spec_in setting.entry) form.now (subsequence_want others) }
{
    is_like(setting, form, subsequence_want(others))
}

// An argument behind those that are wanted may have any form.
fn fits_argument(setting: Setting<'_>, wants: &[Form], others: usize, form: &Form) -> bool
    ensures { result ≡ meets (spec_in setting.entry) form.now (want_behind others (form_trees wants.now)) }
{
    match wants.get(others) {
        Some(wanted) => setting.meets(form, wanted),
        None => true,
    }
}

// The record that is changed has to have all the fields, and a value what some such record may have in its field.
fn fits_changed(
    alloc: Global,
    setting: Setting<'_>,
    fields: &[FieldValue],
    done: &[Seen],
    form: &Form,
) -> Result<bool, OutOfMemory>
    ensures { IfOk result (λ b. b ≡ fits (spec_in setting.entry) (changed_want (spec_in setting.entry) (names_of fields.now) (map seen_view done.now)) form.now) }
{
    let count = done.len();
    if count < 1 {
        return Ok(fits_some(setting, Taking::Kept(fields), form));
    }
    let target = &done[0];
    fits_value(alloc, setting, fields, count - 1, target, form)
}

fn fits_value(
    alloc: Global,
    setting: Setting<'_>,
    fields: &[FieldValue],
    others: usize,
    target: &Seen,
    form: &Form,
) -> Result<bool, OutOfMemory>
    ensures { IfOk result (λ b. b ≡ fits (spec_in setting.entry) (like (field_want (spec_in setting.entry) (names_of fields.now) (name_behind others (names_of fields.now)) (seen_view target.now))) form.now) }
{
    let wanted = field_want(alloc, setting, fields, others, target)?;
    Ok(setting.meets(form, &wanted))
}

// What the value behind so many others has to meet.
fn field_want(
    alloc: Global,
    setting: Setting<'_>,
    fields: &[FieldValue],
    others: usize,
    target: &Seen,
) -> Result<Form, OutOfMemory>
    ensures { IfOk result (λ f. f ≡ field_want (spec_in setting.entry) (names_of fields.now) (name_behind others (names_of fields.now)) (seen_view target.now)) }
{
    match fields.get(others) {
        Some(field) => value_want(alloc, setting, fields, field.name, target),
        None => Ok(Form::any()),
    }
}

fn value_want(
    alloc: Global,
    setting: Setting<'_>,
    fields: &[FieldValue],
    field: Name,
    target: &Seen,
) -> Result<Form, OutOfMemory>
    ensures { IfOk result (λ f. f ≡ field_want (spec_in setting.entry) (names_of fields.now) (Some field) (seen_view target.now)) }
{
    if target.fits {
        taken_by(alloc, setting, Taking::Field(fields, field), &target.form)
    } else {
        Ok(Form::any())
    }
}

/// Notes where a value does not fit that has to be of a form.
pub fn want_like(
    setting: Setting<'_>,
    wanted: &Form,
    place: Place,
    form: &Form,
    refusals: &mut Refusals,
)
    ensures { first_in refusals.new ≡ first_among (first_in refusals.old) (want_faults (spec_in setting.entry) wanted.now place form.now) }
{
    refusals.refuse_if(!setting.meets(form, wanted), SpecKind::NoCommonValue, place);
}
