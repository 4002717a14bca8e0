// Sets, sequences and maps of what is taken from others.

ghost use Rattle.std.specs.Prelude.{◌≡◌, IfOk};
ghost use Rattle.form_meaning.specs.Forms.{joined};
ghost use Rattle.form_meaning.specs.Parts.{taken};
ghost use Rattle.class_checks.specs.Operators.{map_with, sequence_with, set_with};
ghost use Rattle.class_checks.specs.TypeNames.{opened};
ghost use Rattle.type_forms.specs.Taking.{take_of};
ghost use Rattle.check_scopes.specs.Told.{spec_in};

use check_scopes::Setting;
use std::alloc::Global;
use type_forms::{Alt, Form, PartOf, joined, taken};
use vdm_kinds::OutOfMemory;

/// Sets of such elements.
pub fn set_with(alloc: Global, elements: Form) -> Result<Form, OutOfMemory>
    ensures { IfOk result (λ f. f ≡ set_with elements) }
{
    Form::only(alloc, Alt::Set(elements))
}

/// Sequences of such items.
pub fn sequence_with(alloc: Global, items: Form) -> Result<Form, OutOfMemory>
    ensures { IfOk result (λ f. f ≡ sequence_with items) }
{
    Form::only(alloc, Alt::Seq(items))
}

/// Maps of such keys and values.
pub fn map_with(alloc: Global, keys: Form, values: Form) -> Result<Form, OutOfMemory>
    ensures { IfOk result (λ f. f ≡ map_with keys values) }
{
    Form::only(alloc, Alt::Map(keys, values))
}

/// Sets of the parts that are taken of a form.
pub(crate) fn set_of(alloc: Global, part: PartOf, form: &Form) -> Result<Form, OutOfMemory>
    ensures { IfOk result (λ f. f ≡ set_with (taken (take_of part) form.now)) }
{
    set_with(alloc, taken(alloc, part, form)?)
}

/// Sequences of the parts that are taken of a form.
pub fn sequence_of(alloc: Global, part: PartOf, form: &Form) -> Result<Form, OutOfMemory>
    ensures { IfOk result (λ f. f ≡ sequence_with (taken (take_of part) form.now)) }
{
    sequence_with(alloc, taken(alloc, part, form)?)
}

/// Maps whose keys are taken of one form, and whose values of another.
pub(crate) fn map_of(
    alloc: Global,
    key: PartOf,
    form: &Form,
    value: PartOf,
    other: &Form,
) -> Result<Form, OutOfMemory>
    ensures { IfOk result (λ f. f ≡ map_with (taken (take_of key) form.now) (taken (take_of value) other.now)) }
{
    let keys = taken(alloc, key, form)?;
    map_with(alloc, keys, taken(alloc, value, other)?)
}

/// What is taken of a form, its names opened.
pub(crate) fn opened_part(
    alloc: Global,
    setting: Setting<'_>,
    part: PartOf,
    form: &Form,
) -> Result<Form, OutOfMemory>
    ensures { IfOk result (λ f. f ≡ opened (spec_in setting.entry) (taken (take_of part) form.now)) }
{
    let parts = taken(alloc, part, form)?;
    setting.opened(alloc, &parts)
}

/// What is taken of the one form or of the other.
pub(crate) fn both_of(
    alloc: Global,
    part: PartOf,
    form: &Form,
    other: &Form,
) -> Result<Form, OutOfMemory>
    ensures { IfOk result (λ f. f ≡ joined (taken (take_of part) form.now) (taken (take_of part) other.now)) }
{
    let known = taken(alloc, part, form)?;
    joined(alloc, known, &taken(alloc, part, other)?)
}
