// Names of classes.

ghost use Rattle.std.specs.Prelude.{◌≡◌};
ghost use Rattle.class_checks.specs.Expressions.{class_faults};
ghost use Rattle.class_checks.specs.Results.{first_among};
ghost use Rattle.class_checks.specs.TypeNames.{is_class};
ghost use Rattle.check_scopes.specs.Told.{first_in, spec_in};

use check_scopes::{Refusals, Setting};
use vdm_kinds::{Name, Place, SpecKind};

/// Refuses the name of a class that is none.
pub fn class_faults(setting: Setting<'_>, refusals: &mut Refusals, class: Name, place: Place)
    ensures { first_in refusals.new ≡ first_among (first_in refusals.old) (class_faults (spec_in setting.entry) class place) }
{
    let known = is_class(setting, class);
    refusals.refuse_if(!known, SpecKind::UnknownName, place);
}

/// Whether a name is a class's.
pub(crate) fn is_class(setting: Setting<'_>, class: Name) -> bool
    ensures { result ≡ is_class (spec_in setting.entry) class }
{
    match setting.table.number(class) {
        Some(_) => true,
        None => false,
    }
}
