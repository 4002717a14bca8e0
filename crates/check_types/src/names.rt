// Names of types.

ghost use Rattle.std.specs.Prelude.{◌≡◌, ℕ, Some, not};
ghost use Rattle.vdm_kinds.specs.declared.place.Place.{Place as PlaceOf};
ghost use Rattle.vdm_kinds.specs.declared.spec_kind.SpecKind.TheVariants.{NotVisible};
ghost use Rattle.class_meaning.specs.Calls.{is_visible};
ghost use Rattle.class_meaning.specs.Classes.{class_number};
ghost use Rattle.class_checks.specs.Results.{first_among, refused_if};
ghost use Rattle.class_checks.specs.TypeNames.{in_class_faults, meant_faults, name_faults};
ghost use Rattle.check_scopes.specs.Told.{first_in, spec_in, types_in};
ghost use Rattle.check_types.specs.Refusing.{refused_as, refused_by};
ghost use Rattle.expr_tree.specs.TypeDefView.{type_def_view};
ghost use Rattle.check_scopes.specs.Below.spec_table.specs.Meanings.{IsOwned, Owns, meant_view};

use crate::classes::is_class;
use check_scopes::handed::spec_table::{Item, Meant, Owner};
use check_scopes::{Refusals, Setting};
use class_meaning::Ask;
use expr_tree::TypeDef;
use vdm_kinds::{Name, Place, SpecKind, TypeName};

/// Refuses the name of a type that may not be named here. `place` is where the whole name begins.
pub fn name_faults(setting: Setting<'_>, refusals: &mut Refusals, name: &TypeName, place: Place)
    ensures { first_in refusals.new ≡ first_among (first_in refusals.old) (name_faults (spec_in setting.entry) (types_in setting.entry) name.now place) }
{
    let _refused = refuse_name(setting, refusals, *name, place);
}

/// The same, with whether it is refused.
pub(crate) fn refuse_name(
    setting: Setting<'_>,
    refusals: &mut Refusals,
    name: TypeName,
    place: Place,
) -> bool
    ensures { refused_by (first_in refusals.old) (name_faults (spec_in setting.entry) (types_in setting.entry) name place) ≡ refused_as (first_in refusals.new) result }
{
    match name.class {
        Some(class) => refuse_in(setting, refusals, class, name, place, false),
        None => {
            let or_class = is_class(setting, name.name);
            refuse_in(
                setting,
                refusals,
                setting.type_scope(),
                name,
                place,
                or_class,
            )
        }
    }
}

// In a class: a type that is found, or a class.
fn refuse_in(
    setting: Setting<'_>,
    refusals: &mut Refusals,
    class: Name,
    name: TypeName,
    place: Place,
    or_class: bool,
) -> bool
    ensures { refused_by (first_in refusals.old) (in_class_faults (spec_in setting.entry) (class_number (spec_in setting.entry) (types_in setting.entry)) name place or_class (class_number (spec_in setting.entry) class)) ≡ refused_as (first_in refusals.new) result }
{
    match setting.table.number(class) {
        Some(_) => refuse_there(setting, refusals, class, name, or_class),
        None => refuse_if(refusals, true, SpecKind::UnknownName, place),
    }
}

fn refuse_there(
    setting: Setting<'_>,
    refusals: &mut Refusals,
    class: Name,
    name: TypeName,
    or_class: bool,
) -> bool
    ensures { (k : ℕ) (place : PlaceOf) → class_number (spec_in setting.entry) class ≡ Some k → refused_by (first_in refusals.old) (in_class_faults (spec_in setting.entry) (class_number (spec_in setting.entry) (types_in setting.entry)) name place or_class (Some k)) ≡ refused_as (first_in refusals.new) result }
{
    let meant = setting.table.meaning(class, Ask::AsType(name.name));
    refuse_meant(setting, refusals, name, or_class, meant)
}

fn refuse_meant(
    setting: Setting<'_>,
    refusals: &mut Refusals,
    name: TypeName,
    or_class: bool,
    meant: Meant<'_>,
) -> bool
    requires { IsOwned (spec_in setting) meant }
    ensures { (place : PlaceOf) → refused_by (first_in refusals.old) (meant_faults (spec_in setting.entry) (class_number (spec_in setting.entry) (types_in setting.entry)) name place or_class (meant_view meant.entry)) ≡ refused_as (first_in refusals.new) result }
{
    let place = name.name_place;
    match meant {
        Meant::Unknown => refuse_if(refusals, !or_class, SpecKind::UnknownName, place),
        Meant::Ambiguous => refuse_if(refusals, true, SpecKind::Ambiguous, place),
        Meant::One(owner, Item::TypeDef(definition)) => {
            refuse_unseen(setting, refusals, owner, definition, place)
        }
        Meant::One(_, _) => refuse_if(refusals, true, SpecKind::UnknownName, place),
    }
}

// Refuses a type of a class that may not be named here.
fn refuse_unseen(
    setting: Setting<'_>,
    refusals: &mut Refusals,
    owner: Owner,
    definition: &TypeDef,
    place: Place,
) -> bool
    requires { Owns (spec_in setting) owner }
    ensures { refused_by (first_in refusals.old) (refused_if (not (is_visible (spec_in setting.entry) (class_number (spec_in setting.entry) (types_in setting.entry)) owner.number (type_def_view definition.now).access.level)) NotVisible place) ≡ refused_as (first_in refusals.new) result }
{
    let from = Some(setting.type_scope());
    let seen = setting.table.visible(from, owner.name, definition.access);
    refuse_if(refusals, !seen, SpecKind::NotVisible, place)
}

/// Refuses where something is to be refused. Gives whether it is.
pub(crate) fn refuse_if(
    refusals: &mut Refusals,
    refused: bool,
    kind: SpecKind,
    place: Place,
) -> bool
    ensures { refused_by (first_in refusals.old) (refused_if refused kind place) ≡ refused_as (first_in refusals.new) result }
{
    refusals.refuse_if(refused, kind, place);
    refused
}
