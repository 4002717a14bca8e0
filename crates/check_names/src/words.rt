// Words that stand for a value: `self`, `RESULT`, and counters.

ghost use Rattle.std.specs.Prelude.{◌≡◌, not, if◌then◌else◌, IfOk};
ghost use Rattle.vdm_kinds.specs.declared.place.Place.{Place as PlaceOf};
ghost use Rattle.vdm_kinds.specs.declared.spec_kind.SpecKind.TheVariants.{NotSynchronised};
ghost use Rattle.class_checks.specs.Members.{is_counted as is_counted_in, may_not_count as may_not_count_in, read_result as result_now, read_self as self_now, self_form as form_of_self, uncounted as uncounted_of};
ghost use Rattle.class_checks.specs.Results.{first_among, gives, refused_if};
ghost use Rattle.class_checks.specs.Scopes.{Locals, scope_number};
ghost use Rattle.form_meaning.specs.Forms.{any_form};
ghost use Rattle.check_scopes.specs.Told.{first_in, scope_at, spec_in, told};

use crate::faults::{beyond, may_not_count};
use crate::members::some_synchronised;
use crate::noting::{refused_name, spoiled_if};
use check_scopes::{Refusals, Setting};
use std::alloc::Global;
use type_forms::{Alt, Form};
use vdm_kinds::{Name, NameAt, OutOfMemory, Place, SpecKind};

/// `self`.
pub fn read_self(
    alloc: Global,
    setting: Setting<'_>,
    refusals: &mut Refusals,
    place: Place,
) -> Result<Form, OutOfMemory>
    ensures { IfOk result (λ form. (names : Locals) → told (first_in refusals.old) (self_now (spec_in setting.entry) (scope_at setting.entry names) place) ≡ told (first_in refusals.new) (gives form)) }
{
    let missing = spoiled_if(
        refusals,
        !setting.scope.object,
        SpecKind::UnknownName,
        place,
    );
    beyond(setting, refusals, place);
    self_form(alloc, setting, missing)
}

fn self_form(alloc: Global, setting: Setting<'_>, spoiled: bool) -> Result<Form, OutOfMemory>
    ensures { IfOk result (λ form. (names : Locals) (place : PlaceOf) → form ≡ (if spoiled then any_form else form_of_self (spec_in setting.entry) (scope_at setting.entry names) place setting.entry.scope.now.class)) }
{
    if spoiled {
        return Ok(Form::any());
    }
    match setting.scope.class {
        Some(class) => Form::only(alloc, Alt::Object(class)),
        None => Ok(Form::any()),
    }
}

/// `RESULT`.
pub fn read_result(
    setting: Setting<'_>,
    refusals: &mut Refusals,
    place: Place,
) -> Result<Form, OutOfMemory>
    ensures { IfOk result (λ form. (names : Locals) → told (first_in refusals.old) (result_now (spec_in setting.entry) (scope_at setting.entry names) place setting.entry.scope.now.result) ≡ told (first_in refusals.new) (gives form)) }
{
    match &setting.scope.result {
        Some(form) => form.copy(),
        None => Ok(refused_name(refusals, SpecKind::UnknownName, place)),
    }
}

/// A counter of the history of operations.
pub fn history(setting: Setting<'_>, refusals: &mut Refusals, names: &[NameAt], place: Place)
    ensures { (bound : Locals) → first_in refusals.new ≡ first_among (first_among (first_in refusals.old) (may_not_count_in (spec_in setting.entry) (scope_at setting.entry bound) place setting.entry.scope.now.reach)) (uncounted_of (spec_in setting.entry) (scope_at setting.entry bound) names.now) }
{
    may_not_count(setting, refusals, place);
    uncounted(setting, refusals, names);
}

fn uncounted(setting: Setting<'_>, refusals: &mut Refusals, names: &[NameAt])
    ensures { (bound : Locals) → first_in refusals.new ≡ first_among (first_in refusals.old) (uncounted_of (spec_in setting.entry) (scope_at setting.entry bound) names.now) }
{
    for named in names {
        refuse_uncounted(setting, refusals, named);
    }
}

fn refuse_uncounted(setting: Setting<'_>, refusals: &mut Refusals, named: &NameAt)
    ensures { (bound : Locals) → first_in refusals.new ≡ first_among (first_in refusals.old) (refused_if (not (is_counted_in (spec_in setting.entry) (scope_number (spec_in setting.entry) (scope_at setting.entry bound)) named.now.name)) NotSynchronised named.now.place) }
{
    let counted = is_counted(setting, named.name);
    refusals.refuse_if(!counted, SpecKind::NotSynchronised, named.place);
}

fn is_counted(setting: Setting<'_>, name: Name) -> bool
    ensures { (bound : Locals) → result ≡ is_counted_in (spec_in setting.entry) (scope_number (spec_in setting.entry) (scope_at setting.entry bound)) name }
{
    match setting.scope.class {
        Some(class) => some_synchronised(setting.table, class, name),
        None => false,
    }
}
