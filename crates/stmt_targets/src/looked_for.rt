// Which variable the name of a target means.

ghost use Rattle.std.specs.Prelude.{◌≡◌, ℕ, true, Some};
ghost use Rattle.vdm_kinds.specs.declared.place.Place.{Place as PlaceOf};
ghost use Rattle.abstract_syntax.specs.Classes.{SpecTree};
ghost use Rattle.shared_names.specs.Maps.{held};
ghost use Rattle.class_meaning.specs.Classes.{class_number};
ghost use Rattle.class_checks.specs.Scopes.{Locals as LocalForms, scope_number};
ghost use Rattle.spec_checks.specs.Targets.{StmtScope, written_behind_class, written_in, written_local_or, written_meant, written_member};
ghost use Rattle.target_steps.specs.Below.spec_table.specs.Meanings.{IsOwned as IsMeantOwned, Owns, meant_view};
ghost use Rattle.target_steps.specs.Below.spec_table.specs.Members.{item_view};
ghost use Rattle.target_steps.specs.Below.check_scopes.specs.Told.{scope_at, spec_in};
ghost use Rattle.target_steps.specs.Below.check_scopes.specs.declared.setting.Setting.{Setting as AnySetting};
ghost use Rattle.target_steps.specs.Below.check_frames.specs.Meant.{spec_here};
ghost use Rattle.target_steps.specs.Below.stmt_scopes.specs.Standing.{stands_here};
ghost use Rattle.stmt_targets.specs.Naming.{IsOwned, stands_with, written_as};

use crate::named::{Member, Named};
use class_meaning::Ask;
use target_steps::handed::check_names::is_below;
use target_steps::handed::check_scopes::Setting;
use target_steps::handed::spec_table::{Item, Meant, Owner};
use target_steps::handed::stmt_scopes::{Stands, is_declared};
use type_forms::Form;
use vdm_kinds::{Name, Place, SpecKind};

/// A name that stands alone: a local where one is bound, which has to be declared.
pub(crate) fn named_alone<'t>(stands: Stands<'t>, name: Name, place: Place) -> Named<'t>
    ensures named { written_as stands.entry.here.setting (held stands.entry.here.locals.now) result ≡ written_local_or (spec_here stands.entry.here) (stands_here stands.entry) name place (held stands.entry.here.locals.now name) }
    ensures owned { IsOwned (spec_here stands.entry.here) result }
{
    match stands.here.locals.find(name) {
        Some(form) => named_local(stands, form, name, place),
        None => named_here(stands.here.setting, name, place),
    }
}

// What a pattern, a parameter or a loop binds is no variable, also where it hides one.
fn named_local<'t>(stands: Stands<'t>, form: &'t Form, name: Name, place: Place) -> Named<'t>
    ensures named { written_as stands.entry.here.setting (held stands.entry.here.locals.now) result ≡ written_local_or (spec_here stands.entry.here) (stands_here stands.entry) name place (Some form.entry.now) }
    ensures owned { IsOwned (spec_here stands.entry.here) result }
{
    if is_declared(stands.declared, name) {
        Named::Local(form)
    } else {
        Named::Refused(SpecKind::UnknownName, place)
    }
}

// What the name is in the class of the scope.
fn named_here<'t>(setting: Setting<'t>, name: Name, place: Place) -> Named<'t>
    ensures named { (names : LocalForms) (other : StmtScope) → written_as setting.entry names result ≡ written_in (spec_in setting.entry) (stands_with setting.entry names other) name place true (scope_number (spec_in setting.entry) (scope_at setting.entry names)) }
    ensures owned { IsOwned (spec_in setting.entry) result }
{
    match setting.scope.class {
        Some(class) => named_in_class(setting, true, class, name, place),
        None => Named::Refused(SpecKind::UnknownName, place),
    }
}

// What it is in a class. `own`: whether the object here is of it.
fn named_in_class<'t>(
    setting: Setting<'t>,
    own: bool,
    class: Name,
    name: Name,
    place: Place,
) -> Named<'t>
    ensures named { (names : LocalForms) (other : StmtScope) → written_as setting.entry names result ≡ written_in (spec_in setting.entry) (stands_with setting.entry names other) name place own (class_number (spec_in setting.entry) class) }
    ensures owned { IsOwned (spec_in setting.entry) result }
{
    let meant = setting.table.meaning(class, Ask::ByName(name));
    named_by(own, meant, place)
}

fn named_by<'t>(own: bool, meant: Meant<'t>, place: Place) -> Named<'t>
    ensures named { (setting : AnySetting) (names : LocalForms) (other : StmtScope) → written_as setting names result ≡ written_meant (spec_in setting) (stands_with setting names other) place own (meant_view meant.entry) }
    ensures owned { (spec : SpecTree) → IsMeantOwned spec meant.entry → IsOwned spec result }
{
    match meant {
        Meant::Unknown => Named::Refused(SpecKind::UnknownName, place),
        Meant::Ambiguous => Named::Refused(SpecKind::Ambiguous, place),
        Meant::One(owner, item) => named_member(own, owner, item, place),
    }
}

// A variable; nothing else may be assigned.
fn named_member<'t>(own: bool, owner: Owner, item: Item<'t>, place: Place) -> Named<'t>
    ensures named { (setting : AnySetting) (names : LocalForms) (other : StmtScope) → written_as setting names result ≡ written_member (spec_in setting) (stands_with setting names other) place own owner.number (item_view item.entry) }
    ensures owned { (spec : SpecTree) → Owns spec owner → IsOwned spec result }
{
    match item {
        Item::Variable(variable) => Named::Variable(Member {
            place,
            own,
            owner,
            variable,
        }),
        Item::TypeDef(_) | Item::Value(_) | Item::Function(_) | Item::Operation(_) => {
            Named::Refused(SpecKind::UnknownName, place)
        }
    }
}

/// ``C`x``: `place` is the class's, where the name begins.
pub(crate) fn named_behind<'t>(
    setting: Setting<'t>,
    class: Name,
    name: Name,
    name_place: Place,
    place: Place,
) -> Named<'t>
    ensures named { (names : LocalForms) (other : StmtScope) → written_as setting.entry names result ≡ written_behind_class (spec_in setting.entry) (stands_with setting.entry names other) name name_place place (class_number (spec_in setting.entry) class) }
    ensures owned { IsOwned (spec_in setting.entry) result }
{
    match setting.table.number(class) {
        Some(_) => named_below(setting, class, name, name_place),
        None => Named::Refused(SpecKind::UnknownName, place),
    }
}

// ... of a class that is there.
fn named_below<'t>(setting: Setting<'t>, class: Name, name: Name, name_place: Place) -> Named<'t>
    ensures named { (names : LocalForms) (other : StmtScope) (place : PlaceOf) (k : ℕ) → class_number (spec_in setting.entry) class ≡ Some k → written_as setting.entry names result ≡ written_behind_class (spec_in setting.entry) (stands_with setting.entry names other) name name_place place (class_number (spec_in setting.entry) class) }
    ensures owned { IsOwned (spec_in setting.entry) result }
{
    let own = is_below(setting, class);
    named_in_class(setting, own, class, name, name_place)
}
