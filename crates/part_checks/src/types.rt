// Types of definitions.

ghost use Rattle.std.specs.Prelude.{◌≡◌, option_map};
ghost use Rattle.std.specs.List.{flat_map};
ghost use Rattle.class_checks.specs.Results.{first_among};
ghost use Rattle.class_checks.specs.TypeNames.{type_faults};
ghost use Rattle.definition_scopes.specs.Below.check_scopes.specs.Told.{first_in, spec_in, types_in};
ghost use Rattle.type_tree.specs.TypeView.{type_view, type_views};
ghost use Rattle.part_checks.specs.Wanting.{maybe_type_in};

use definition_scopes::handed::check_scopes::{Refusals, Setting};
use type_check::handed::check_types::type_faults;
use type_tree::TypeExpr;

/// Refuses the names in types that may not be named here.
pub fn refuse_types(setting: Setting<'_>, declared: &[TypeExpr], refusals: &mut Refusals)
    ensures { first_in refusals.new ≡ first_among (first_in refusals.old) (flat_map (type_faults (spec_in setting.entry) (types_in setting.entry)) (type_views declared.now)) }
{
    for one in declared {
        type_faults(setting, refusals, one);
    }
}

/// Refuses the names in a type that may not be named here, where there is a type.
pub fn refuse_maybe_type(setting: Setting<'_>, declared: &Option<TypeExpr>, refusals: &mut Refusals)
    ensures { first_in refusals.new ≡ first_among (first_in refusals.old) (maybe_type_in (spec_in setting.entry) (types_in setting.entry) (option_map type_view declared.now)) }
{
    match declared {
        Some(declared) => type_faults(setting, refusals, declared),
        None => {}
    }
}
