// The form of what an operator gives.

ghost use Rattle.std.specs.Prelude.{◌≡◌, if◌then◌else◌, IfOk};
ghost use Rattle.form_meaning.specs.Forms.{no_form, joined};
ghost use Rattle.form_meaning.specs.Parts.{taken, item, key, value};
ghost use Rattle.class_checks.specs.Operators.{any_map, any_sequence, gives_of_one, gives_of_two, map_with, overridden, sequence_with};
ghost use Rattle.class_checks.specs.TypeNames.{meets};
ghost use Rattle.check_scopes.specs.Told.{spec_in};
ghost use Rattle.check_operators.specs.Ways.{of_one, of_two};

use crate::kind::{Kind, is_like};
use crate::making::{
    both_of, map_of, map_with, opened_part, sequence_of, sequence_with, set_of, set_with,
};
use crate::ways::{WayOfOne, WayOfTwo};
use check_scopes::Setting;
use std::alloc::Global;
use type_forms::{Form, PartOf, joined, taken};
use vdm_kinds::OutOfMemory;

/// The form that an operator gives of the form of its operand.
pub fn of_one(
    alloc: Global,
    setting: Setting<'_>,
    way: WayOfOne,
    form: &Form,
) -> Result<Form, OutOfMemory>
    ensures { IfOk result (λ f. f ≡ of_one (spec_in setting.entry) way form.now) }
{
    match way {
        WayOfOne::Truth => Kind::Truth.form(alloc),
        WayOfOne::Number => Kind::Number.form(alloc),
        WayOfOne::Numbers => set_with(alloc, Kind::Number.form(alloc)?),
        WayOfOne::SetOf(part) => set_of(alloc, part, form),
        WayOfOne::SequenceOf(part) => sequence_of(alloc, part, form),
        WayOfOne::MapOf(keys, values) => map_of(alloc, keys, form, values, form),
        WayOfOne::Part(part) => opened_part(alloc, setting, part, form),
        WayOfOne::SetOfSets => set_with(alloc, set_of(alloc, PartOf::Element, form)?),
        WayOfOne::SetWithin => {
            let parts = opened_part(alloc, setting, PartOf::Element, form)?;
            set_of(alloc, PartOf::Element, &parts)
        }
        WayOfOne::SequenceWithin => {
            let parts = opened_part(alloc, setting, PartOf::Item, form)?;
            sequence_of(alloc, PartOf::Item, &parts)
        }
        WayOfOne::MapWithin => {
            let parts = opened_part(alloc, setting, PartOf::Element, form)?;
            map_of(alloc, PartOf::Key, &parts, PartOf::Value, &parts)
        }
    }
}

/// The form that an operator gives of the forms of its operands.
pub fn of_two(
    alloc: Global,
    setting: Setting<'_>,
    way: WayOfTwo,
    form: &Form,
    other: &Form,
) -> Result<Form, OutOfMemory>
    ensures { IfOk result (λ f. f ≡ of_two (spec_in setting.entry) way form.now other.now) }
{
    match way {
        WayOfTwo::Truth => Kind::Truth.form(alloc),
        WayOfTwo::Number => Kind::Number.form(alloc),
        WayOfTwo::Union => set_with(alloc, both_of(alloc, PartOf::Element, form, other)?),
        WayOfTwo::LeftSet => set_of(alloc, PartOf::Element, form),
        WayOfTwo::MapUnion => joined_maps(alloc, form, other),
        WayOfTwo::Override => overridden(alloc, setting, form, other),
        WayOfTwo::Concatenation => sequence_with(alloc, both_of(alloc, PartOf::Item, form, other)?),
        WayOfTwo::RightMap => map_of(alloc, PartOf::Key, other, PartOf::Value, other),
        WayOfTwo::LeftMap => map_of(alloc, PartOf::Key, form, PartOf::Value, form),
        WayOfTwo::Composition => map_of(alloc, PartOf::Key, other, PartOf::Value, form),
    }
}

fn joined_maps(alloc: Global, form: &Form, other: &Form) -> Result<Form, OutOfMemory>
    ensures { IfOk result (λ f. f ≡ map_with (joined (taken key form.now) (taken key other.now)) (joined (taken value form.now) (taken value other.now))) }
{
    let keys = both_of(alloc, PartOf::Key, form, other)?;
    let values = both_of(alloc, PartOf::Value, form, other)?;
    map_with(alloc, keys, values)
}

// `++` of a sequence or of a map.
fn overridden(
    alloc: Global,
    setting: Setting<'_>,
    form: &Form,
    other: &Form,
) -> Result<Form, OutOfMemory>
    ensures { IfOk result (λ f. f ≡ overridden (spec_in setting.entry) form.now other.now) }
{
    let sequence = overridden_sequence(alloc, setting, form, other)?;
    let map = overridden_map(alloc, setting, form, other)?;
    joined(alloc, sequence, &map)
}

fn overridden_sequence(
    alloc: Global,
    setting: Setting<'_>,
    form: &Form,
    other: &Form,
) -> Result<Form, OutOfMemory>
    ensures { IfOk result (λ f. f ≡ (if meets (spec_in setting.entry) form.now any_sequence then sequence_with (joined (taken item form.now) (taken value other.now)) else no_form)) }
{
    if is_like(setting, form, Kind::Sequence) {
        changed_sequence(alloc, form, other)
    } else {
        Ok(Form::nothing())
    }
}

fn changed_sequence(alloc: Global, form: &Form, other: &Form) -> Result<Form, OutOfMemory>
    ensures { IfOk result (λ f. f ≡ sequence_with (joined (taken item form.now) (taken value other.now))) }
{
    let items = taken(alloc, PartOf::Item, form)?;
    let values = taken(alloc, PartOf::Value, other)?;
    sequence_with(alloc, joined(alloc, items, &values)?)
}

fn overridden_map(
    alloc: Global,
    setting: Setting<'_>,
    form: &Form,
    other: &Form,
) -> Result<Form, OutOfMemory>
    ensures { IfOk result (λ f. f ≡ (if meets (spec_in setting.entry) form.now any_map then map_with (joined (taken key form.now) (taken key other.now)) (joined (taken value form.now) (taken value other.now)) else no_form)) }
{
    if is_like(setting, form, Kind::Map) {
        joined_maps(alloc, form, other)
    } else {
        Ok(Form::nothing())
    }
}
