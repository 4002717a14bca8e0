// Records that are made.

ghost use Rattle.std.specs.Prelude.{◌≡◌, Some, IfOk};
ghost use Rattle.class_checks.specs.Expressions.{record_callee};
ghost use Rattle.class_checks.specs.TypeNames.{record_type};
ghost use Rattle.check_steps.specs.Below.check_scopes.specs.Told.{first_in, types_in};
ghost use Rattle.check_steps.specs.Below.check_calls.specs.Calling.{Calls};
ghost use Rattle.check_steps.specs.Below.check_frames.specs.Meant.{scope_here, spec_here};
ghost use Rattle.check_called.specs.Offers.{nothing_offered, offer_of, offered};

use check_steps::handed::check_calls::Callee;
use check_steps::handed::check_frames::Here;
use check_steps::handed::check_scopes::Refusals;
use check_steps::handed::check_types::{field_forms, record_faults, record_type};
use type_forms::{Alt, Form};
use vdm_kinds::{Name, OutOfMemory, Place, TypeName};

/// `mk_T` with so many parts.
pub(crate) fn record_callee(
    here: Here<'_>,
    refusals: &mut Refusals,
    type_name: TypeName,
    count: usize,
    place: Place,
) -> Result<Callee, OutOfMemory>
    ensures { IfOk result (λ callee. Calls (first_in refusals.old) (first_in refusals.new) callee (record_callee (spec_here here.entry) (scope_here here.entry) type_name count place)) }
{
    let refused = record_faults(here.setting, refusals, type_name, count, place)?;
    if refused {
        return Ok(of_nothing(here));
    }
    made(here, type_name)
}

// Nothing is wanted of the parts.
fn of_nothing(here: Here<'_>) -> Callee
    ensures { offered result ≡ nothing_offered }
{
    Callee {
        wants: Vec::new(here.alloc),
        result: Form::any(),
    }
}

fn made(here: Here<'_>, type_name: TypeName) -> Result<Callee, OutOfMemory>
    ensures { IfOk result (λ callee. offered callee ≡ offer_of (spec_here here.entry) (record_type (spec_here here.entry) (types_in here.entry.setting) type_name)) }
{
    let found = record_type(here.setting, type_name)?;
    match found {
        Some((class, name)) => of_record(here, class, name),
        None => Ok(of_nothing(here)),
    }
}

// The record type of a class and a name.
fn of_record(here: Here<'_>, class: Name, name: Name) -> Result<Callee, OutOfMemory>
    ensures { IfOk result (λ callee. offered callee ≡ offer_of (spec_here here.entry) (Some (record { class = class; name = name }))) }
{
    let Here { alloc, setting, .. } = here;
    let wants = field_forms(alloc, setting, class, name)?;
    let result = Form::only(alloc, Alt::Record { class, name })?;
    Ok(Callee { wants, result })
}
