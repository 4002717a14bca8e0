// The form of a node whose parts were all checked.

ghost use Rattle.std.specs.Prelude.{◌≡◌, map, IfOk};
ghost use Rattle.abstract_syntax.specs.Classes.{SpecTree};
ghost use Rattle.class_checks.specs.Operators.{set_with, sequence_with, number};
ghost use Rattle.class_checks.specs.Shapes.{finished, of_changed, of_map, of_operator, of_part, of_prefix, of_sequence, of_set, of_subsequence, of_tuple};
ghost use Rattle.check_fields.specs.Below.check_scopes.specs.Told.{spec_in};
ghost use Rattle.check_shapes.specs.ShapeView.{names_of, seen_view, shape_view};

use crate::gathering::{forms_seen, is_unfit, keys_seen, parts_seen, seen_at, values_seen};
use crate::shape::{Seen, Shape};
use crate::taking::{Taking, taken_by};
use check_fields::handed::check_scopes::Setting;
use check_operators::{
    Kind, Operands, map_with, of_one, of_two, sequence_of, sequence_with, set_with, source,
    way_of_one, way_of_two,
};
use expr_tree::FieldValue;
use std::alloc::Global;
use type_forms::{Alt, Form, PartOf};
use vdm_kinds::{OutOfMemory, Sign};

/// The form of the node whose parts these are.
pub fn finished(
    alloc: Global,
    setting: Setting<'_>,
    shape: Shape<'_>,
    done: Vec<Seen>,
) -> Result<Form, OutOfMemory>
    ensures { IfOk result (λ f. f ≡ finished (spec_in setting.entry) (shape_view shape.entry) (map seen_view done.items)) }
{
    form_of_node(alloc, setting, &shape, done.as_slice())
}

fn form_of_node(
    alloc: Global,
    setting: Setting<'_>,
    shape: &Shape<'_>,
    done: &[Seen],
) -> Result<Form, OutOfMemory>
    ensures { IfOk result (λ f. f ≡ finished (spec_in setting.entry) (shape_view shape.now) (map seen_view done.now)) }
{
    match shape {
        Shape::Prefix(sign) => of_prefix(alloc, setting, *sign, done),
        Shape::Operator(sign) => of_operator(alloc, setting, *sign, done),
        Shape::Range => set_with(alloc, Kind::Number.form(alloc)?),
        Shape::Set => set_with(alloc, parts_seen(alloc, done)?),
        Shape::Sequence => sequence_with(alloc, parts_seen(alloc, done)?),
        Shape::Map => of_map(alloc, done),
        Shape::Tuple => Form::only(alloc, Alt::Tuple(forms_seen(alloc, done)?)),
        Shape::Token => Form::only(alloc, Alt::Token),
        Shape::Test => Kind::Truth.form(alloc),
        Shape::Condition => Kind::Truth.form(alloc),
        Shape::Call(_, result) => result.copy(),
        Shape::Part(number) => of_part(alloc, setting, *number, done),
        Shape::Subsequence => of_subsequence(alloc, done),
        Shape::Changed(fields) => of_changed(alloc, setting, fields.as_slice(), done),
    }
}

fn of_prefix(
    alloc: Global,
    setting: Setting<'_>,
    sign: Sign,
    done: &[Seen],
) -> Result<Form, OutOfMemory>
    ensures { IfOk result (λ f. f ≡ finished (spec_in setting.entry) (of_prefix sign) (map seen_view done.now)) }
{
    if is_unfit(source(sign), done) {
        return Ok(Form::any());
    }
    let operand = seen_at(0, done)?;
    of_one(alloc, setting, way_of_one(sign), &operand)
}

fn of_operator(
    alloc: Global,
    setting: Setting<'_>,
    sign: Sign,
    done: &[Seen],
) -> Result<Form, OutOfMemory>
    ensures { IfOk result (λ f. f ≡ finished (spec_in setting.entry) (of_operator sign) (map seen_view done.now)) }
{
    if is_unfit(source(sign), done) {
        return Ok(Form::any());
    }
    let left = seen_at(0, done)?;
    let right = seen_at(1, done)?;
    of_two(alloc, setting, way_of_two(sign), &left, &right)
}

fn of_map(alloc: Global, done: &[Seen]) -> Result<Form, OutOfMemory>
    ensures { (spec : SpecTree) → IfOk result (λ f. f ≡ finished spec of_map (map seen_view done.now)) }
{
    let keys = keys_seen(alloc, done)?;
    map_with(alloc, keys, values_seen(alloc, done)?)
}

fn of_part(
    alloc: Global,
    setting: Setting<'_>,
    number: i128,
    done: &[Seen],
) -> Result<Form, OutOfMemory>
    ensures { IfOk result (λ f. f ≡ finished (spec_in setting.entry) (of_part number) (map seen_view done.now)) }
{
    if is_unfit(Operands::Left, done) {
        return Ok(Form::any());
    }
    let target = seen_at(0, done)?;
    let part = taken_by(alloc, setting, Taking::Numbered(number), &target)?;
    setting.opened(alloc, &part)
}

fn of_subsequence(alloc: Global, done: &[Seen]) -> Result<Form, OutOfMemory>
    ensures { (spec : SpecTree) → IfOk result (λ f. f ≡ finished spec of_subsequence (map seen_view done.now)) }
{
    if is_unfit(Operands::Left, done) {
        return Ok(Form::any());
    }
    let target = seen_at(0, done)?;
    sequence_of(alloc, PartOf::Item, &target)
}

fn of_changed(
    alloc: Global,
    setting: Setting<'_>,
    fields: &[FieldValue],
    done: &[Seen],
) -> Result<Form, OutOfMemory>
    ensures { IfOk result (λ f. f ≡ finished (spec_in setting.entry) (of_changed (names_of fields.now)) (map seen_view done.now)) }
{
    if is_unfit(Operands::Left, done) {
        return Ok(Form::any());
    }
    let target = seen_at(0, done)?;
    taken_by(alloc, setting, Taking::Kept(fields), &target)
}
