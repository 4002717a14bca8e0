// The forms of what stands in a value.

ghost use Rattle.std.specs.Prelude.{◌≡◌, IfOk};
ghost use Rattle.class_checks.specs.Operators.{any_set, any_sequence, any_map, sequence_with};
ghost use Rattle.class_checks.specs.Patterns.{parts_of, elements_of, items_of};
ghost use Rattle.check_types.specs.Below.check_scopes.specs.Told.{spec_in};
ghost use Rattle.type_forms.specs.Taking.{take_of};

use check_types::handed::check_scopes::Setting;
use std::alloc::Global;
use type_forms::{Alt, Form, PartOf, taken};
use vdm_kinds::OutOfMemory;

/// The form of an element of a set.
pub fn elements_of(alloc: Global, setting: Setting<'_>, form: &Form) -> Result<Form, OutOfMemory>
    ensures { IfOk result (λ f. f ≡ elements_of (spec_in setting.entry) form.now) }
{
    let want = any_set(alloc)?;
    parts_of(alloc, setting, &want, PartOf::Element, form)
}

/// The form of an item of a sequence.
pub fn items_of(alloc: Global, setting: Setting<'_>, form: &Form) -> Result<Form, OutOfMemory>
    ensures { IfOk result (λ f. f ≡ items_of (spec_in setting.entry) form.now) }
{
    let want = any_sequence(alloc)?;
    parts_of(alloc, setting, &want, PartOf::Item, form)
}

/// The form of a front of a sequence.
pub(crate) fn fronts_of(
    alloc: Global,
    setting: Setting<'_>,
    form: &Form,
) -> Result<Form, OutOfMemory>
    ensures { IfOk result (λ f. f ≡ sequence_with (items_of (spec_in setting.entry) form.now)) }
{
    let items = items_of(alloc, setting, form)?;
    Form::only(alloc, Alt::Seq(items))
}

/// The form of a key or a value of a map.
pub(crate) fn map_part(
    alloc: Global,
    setting: Setting<'_>,
    part: PartOf,
    form: &Form,
) -> Result<Form, OutOfMemory>
    ensures { IfOk result (λ f. f ≡ parts_of (spec_in setting.entry) any_map (take_of part) form.now) }
{
    let want = any_map(alloc)?;
    parts_of(alloc, setting, &want, part, form)
}

// The part that is taken of a value, where some of what it may be is wanted; else it may have any form.
fn parts_of(
    alloc: Global,
    setting: Setting<'_>,
    want: &Form,
    part: PartOf,
    form: &Form,
) -> Result<Form, OutOfMemory>
    ensures { IfOk result (λ f. f ≡ parts_of (spec_in setting.entry) want.now (take_of part) form.now) }
{
    if setting.meets(form, want) {
        let known = taken(alloc, part, form)?;
        setting.opened(alloc, &known)
    } else {
        Ok(Form::any())
    }
}

fn any_set(alloc: Global) -> Result<Form, OutOfMemory>
    ensures { IfOk result (λ f. f ≡ any_set) }
{
    Form::only(alloc, Alt::Set(Form::any()))
}

fn any_sequence(alloc: Global) -> Result<Form, OutOfMemory>
    ensures { IfOk result (λ f. f ≡ any_sequence) }
{
    Form::only(alloc, Alt::Seq(Form::any()))
}

fn any_map(alloc: Global) -> Result<Form, OutOfMemory>
    ensures { IfOk result (λ f. f ≡ any_map) }
{
    Form::only(alloc, Alt::Map(Form::any(), Form::any()))
}
