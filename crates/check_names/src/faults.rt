// What is refused where a member is named.

ghost use Rattle.std.specs.Prelude.{◌≡◌, ◌∷◌, [], false};
ghost use Rattle.vdm_kinds.specs.declared.spec_kind.SpecKind.TheVariants.{UnknownName, GuardReach, InitReach};
ghost use Rattle.class_checks.specs.Members.{beyond as beyond_reach, may_not_create as may_not_create_in, may_not_count as may_not_count_in, operation_faults as faults_of_operation, other_faults as faults_of_other, unread as unread_in, unseen as unseen_in, variable_faults as faults_of_variable, without_object as without_an_object};
ghost use Rattle.class_checks.specs.Results.{first_among};
ghost use Rattle.class_checks.specs.Scopes.{Locals};
ghost use Rattle.check_scopes.specs.Told.{first_in, scope_at, spec_in};
ghost use Rattle.check_names.specs.Noting.{note, noted};
ghost use Rattle.check_scopes.specs.Below.spec_table.specs.Meanings.{Owns};

use crate::noting::{either, spoiled_if};
use check_scopes::handed::spec_table::Owner;
use check_scopes::{Refusals, Setting};
use class_checks::Reach;
use vdm_kinds::{Access, Place, SpecKind};

/// Refuses a member that may not be named here.
pub fn unseen(
    setting: Setting<'_>,
    refusals: &mut Refusals,
    owner: Owner,
    access: Access,
    place: Place,
) -> bool
    requires { Owns (spec_in setting) owner }
    ensures { (names : Locals) → note (first_in refusals.old) (unseen_in (spec_in setting.entry) (scope_at setting.entry names) place owner.number access) ≡ noted refusals.new result }
{
    let seen = setting
        .table
        .visible(setting.scope.class, owner.name, access);
    spoiled_if(refusals, !seen, SpecKind::NotVisible, place)
}

/// Refuses what has no object here and wants one. `own`: whether the object is of the class that was named.
pub(crate) fn without_object(
    setting: Setting<'_>,
    refusals: &mut Refusals,
    own: bool,
    access: Access,
    place: Place,
) -> bool
    ensures { (names : Locals) → note (first_in refusals.old) (without_an_object (spec_in setting.entry) (scope_at setting.entry names) place own access) ≡ noted refusals.new result }
{
    let there = setting.scope.object && own;
    spoiled_if(
        refusals,
        !access.is_static && !there,
        SpecKind::UnknownName,
        place,
    )
}

/// Refuses a variable that may not be read here.
pub(crate) fn unread(setting: Setting<'_>, refusals: &mut Refusals, access: Access, place: Place)
    ensures { (names : Locals) → note (first_in refusals.old) (unread_in (spec_in setting.entry) (scope_at setting.entry names) place setting.entry.scope.now.reach access) ≡ noted refusals.new false }
{
    match setting.scope.reach {
        Reach::Free => {}
        Reach::Init => refusals.refuse(SpecKind::InitReach, place),
        Reach::Pure => refusals.refuse(SpecKind::InitReach, place),
        Reach::Guard => refusals.refuse_if(access.is_static, SpecKind::GuardReach, place),
        Reach::Inv => refusals.refuse_if(access.is_static, SpecKind::GuardReach, place),
    }
}

/// Refuses what may not be reached from a pure place: operations, `self`, `time` and what other objects have.
pub fn beyond(setting: Setting<'_>, refusals: &mut Refusals, place: Place)
    ensures { (names : Locals) → note (first_in refusals.old) (beyond_reach (spec_in setting.entry) (scope_at setting.entry names) place setting.entry.scope.now.reach) ≡ noted refusals.new false }
{
    match setting.scope.reach {
        Reach::Free => {}
        Reach::Init => refusals.refuse(SpecKind::InitReach, place),
        Reach::Pure => refusals.refuse(SpecKind::InitReach, place),
        Reach::Guard => refusals.refuse(SpecKind::GuardReach, place),
        Reach::Inv => refusals.refuse(SpecKind::GuardReach, place),
    }
}

/// Refuses that an object is made here.
pub fn may_not_create(setting: Setting<'_>, refusals: &mut Refusals, place: Place)
    ensures { (names : Locals) → note (first_in refusals.old) (may_not_create_in (spec_in setting.entry) (scope_at setting.entry names) place setting.entry.scope.now.reach) ≡ noted refusals.new false }
{
    match setting.scope.reach {
        Reach::Free => {}
        Reach::Init => {}
        Reach::Pure => refusals.refuse(SpecKind::InitReach, place),
        Reach::Guard => refusals.refuse(SpecKind::GuardReach, place),
        Reach::Inv => refusals.refuse(SpecKind::GuardReach, place),
    }
}

/// Refuses a counter here.
pub(crate) fn may_not_count(setting: Setting<'_>, refusals: &mut Refusals, place: Place)
    ensures { (names : Locals) → first_in refusals.new ≡ first_among (first_in refusals.old) (may_not_count_in (spec_in setting.entry) (scope_at setting.entry names) place setting.entry.scope.now.reach) }
{
    match setting.scope.reach {
        Reach::Guard => {}
        Reach::Free | Reach::Init | Reach::Pure | Reach::Inv => {
            refusals.refuse(SpecKind::GuardReach, place)
        }
    }
}

/// What is refused where a variable is read.
pub(crate) fn variable_faults(
    setting: Setting<'_>,
    refusals: &mut Refusals,
    own: bool,
    owner: Owner,
    access: Access,
    place: Place,
) -> bool
    requires { Owns (spec_in setting) owner }
    ensures { (names : Locals) → note (first_in refusals.old) (faults_of_variable (spec_in setting.entry) (scope_at setting.entry names) place own owner.number access) ≡ noted refusals.new result }
{
    let missing = without_object(setting, refusals, own, access, place);
    let hidden = unseen(setting, refusals, owner, access, place);
    unread(setting, refusals, access, place);
    either(missing, hidden)
}

/// What is refused where an operation is named.
pub fn operation_faults(
    setting: Setting<'_>,
    refusals: &mut Refusals,
    own: bool,
    owner: Owner,
    access: Access,
    place: Place,
) -> bool
    requires { Owns (spec_in setting) owner }
    ensures { (names : Locals) → note (first_in refusals.old) (faults_of_operation (spec_in setting.entry) (scope_at setting.entry names) place own owner.number access) ≡ noted refusals.new result }
{
    let missing = without_object(setting, refusals, own, access, place);
    let hidden = unseen(setting, refusals, owner, access, place);
    beyond(setting, refusals, place);
    either(missing, hidden)
}

/// What is refused of a member behind an object.
pub fn other_faults(
    setting: Setting<'_>,
    refusals: &mut Refusals,
    owner: Owner,
    access: Access,
    place: Place,
) -> bool
    requires { Owns (spec_in setting) owner }
    ensures { (names : Locals) → note (first_in refusals.old) (faults_of_other (spec_in setting.entry) (scope_at setting.entry names) place owner.number access) ≡ noted refusals.new result }
{
    let hidden = unseen(setting, refusals, owner, access, place);
    beyond(setting, refusals, place);
    hidden
}
