// Types.

ghost use Rattle.std.specs.Prelude.{◌≡◌};
ghost use Rattle.class_checks.specs.Results.{first_among};
ghost use Rattle.class_checks.specs.TypeNames.{type_faults};
ghost use Rattle.check_scopes.specs.Told.{first_in, spec_in, types_in};
ghost use Rattle.type_tree.specs.TypeView.{type_view};

use crate::names::name_faults;
use check_scopes::{Refusals, Setting};
use type_tree::TypeExpr;

/// Refuses the names in a type that may not be named here. It recurses once a level.
pub fn type_faults(setting: Setting<'_>, refusals: &mut Refusals, declared: &TypeExpr)
    ensures { first_in refusals.new ≡ first_among (first_in refusals.old) (type_faults (spec_in setting.entry) (types_in setting.entry) (type_view declared.now)) }
{
    match declared {
        TypeExpr::Basic(_, _) => {}
        TypeExpr::Quote(_, _) => {}
        TypeExpr::Set(element, _) => type_faults(setting, refusals, element),
        TypeExpr::Seq(item, _) => type_faults(setting, refusals, item),
        TypeExpr::Seq1(item, _) => type_faults(setting, refusals, item),
        TypeExpr::Map(key, value, _) => {
            type_faults(setting, refusals, key);
            type_faults(setting, refusals, value);
        }
        TypeExpr::InMap(key, value, _) => {
            type_faults(setting, refusals, key);
            type_faults(setting, refusals, value);
        }
        TypeExpr::Optional(inner, _) => type_faults(setting, refusals, inner),
        TypeExpr::Bracketed(inner, _) => type_faults(setting, refusals, inner),
        TypeExpr::Named(name, place) => name_faults(setting, refusals, name, *place),
        TypeExpr::Product(factors, _) => {
            for factor in factors {
                type_faults(setting, refusals, factor);
            }
        }
        TypeExpr::Union(alternatives, _) => {
            for alternative in alternatives {
                type_faults(setting, refusals, alternative);
            }
        }
    }
}
