// The operation that each release of a periodic thread calls.

ghost use Rattle.std.specs.Prelude.{◌≡◌, ℕ, Some};
ghost use Rattle.class_meaning.specs.Classes.{class_number};
ghost use Rattle.class_meaning.specs.declared.ask.Ask.TheVariants.{Called};
ghost use Rattle.member_meaning.specs.Meaning.{meaning, meant};
ghost use Rattle.class_checks.specs.Results.{first_among};
ghost use Rattle.part_checks.specs.Below.check_scopes.specs.Told.{first_in};
ghost use Rattle.part_checks.specs.Below.check_frames.specs.Meant.{scope_here, spec_here};
ghost use Rattle.part_checks.specs.Below.spec_table.specs.Meanings.{IsOwned, Owns, meant_view};
ghost use Rattle.part_checks.specs.Below.spec_table.specs.Members.{item_view};
ghost use Rattle.sync_checks.specs.Releases.{release_in, released_in, uncalled_in};

use class_meaning::Ask;
use part_checks::handed::check_frames::Here;
use part_checks::handed::check_names::{has_some_called, operation_faults};
use part_checks::handed::check_scopes::Refusals;
use part_checks::handed::spec_table::{Item, Meant, Owner};
use vdm_kinds::{Name, Place, SpecKind};

/// The name of an operation, where it stands, and where the thread stands that calls it.
#[derive(Clone, Copy)]
pub(crate) struct Release {
    pub(crate) name: Name,
    pub(crate) name_place: Place,
    pub(crate) place: Place,
}

/// Refuses the name of what is called, unless it is an operation of the class without parameters.
pub(crate) fn refuse_release(here: Here<'_>, release: Release, refusals: &mut Refusals)
    ensures { first_in refusals.new ≡ first_among (first_in refusals.old) (release_in (spec_here here.entry) (scope_here here.entry) release.name release.name_place release.place) }
{
    let class = here.setting.type_scope();
    match here.setting.table.number(class) {
        Some(_) => refuse_found(here, class, release, refusals),
        None => refusals.refuse(SpecKind::UnknownName, release.name_place),
    }
}

fn refuse_found(here: Here<'_>, class: Name, release: Release, refusals: &mut Refusals)
    ensures { (k : ℕ) → class_number (spec_here here.entry) class ≡ Some k → first_in refusals.new ≡ first_among (first_in refusals.old) (released_in (spec_here here.entry) (scope_here here.entry) release.name release.name_place release.place k (meaning (spec_here here.entry) (Called release.name 0) k)) }
{
    let meant = here
        .setting
        .table
        .meaning(class, Ask::Called(release.name, 0));
    refuse_meant(here, class, release, meant, refusals);
}

fn refuse_meant(
    here: Here<'_>,
    class: Name,
    release: Release,
    meant: Meant<'_>,
    refusals: &mut Refusals,
)
    requires { IsOwned (spec_here here) meant }
    ensures { (k : ℕ) → class_number (spec_here here.entry) class ≡ Some k → first_in refusals.new ≡ first_among (first_in refusals.old) (released_in (spec_here here.entry) (scope_here here.entry) release.name release.name_place release.place k (meant_view meant.entry)) }
{
    match meant {
        Meant::One(owner, item) => refuse_item(here, release, owner, item, refusals),
        Meant::Ambiguous => refusals.refuse(SpecKind::Ambiguous, release.name_place),
        Meant::Unknown => refuse_uncalled(here, class, release, refusals),
    }
}

fn refuse_item(
    here: Here<'_>,
    release: Release,
    owner: Owner,
    item: Item<'_>,
    refusals: &mut Refusals,
)
    requires { Owns (spec_here here) owner }
    ensures { (k : ℕ) → first_in refusals.new ≡ first_among (first_in refusals.old) (released_in (spec_here here.entry) (scope_here here.entry) release.name release.name_place release.place k (meant owner.number (item_view item.entry))) }
{
    let place = release.name_place;
    match item {
        Item::Operation(definition) => {
            let access = definition.access;
            let _spoiled = operation_faults(here.setting, refusals, true, owner, access, place);
        }
        _ => refusals.refuse(SpecKind::UnknownName, place),
    }
}

// No operation without parameters: one of another number of parameters, or none.
fn refuse_uncalled(here: Here<'_>, class: Name, release: Release, refusals: &mut Refusals)
    ensures { (k : ℕ) → class_number (spec_here here.entry) class ≡ Some k → first_in refusals.new ≡ first_among (first_in refusals.old) (uncalled_in (spec_here here.entry) (scope_here here.entry) release.name release.name_place release.place k) }
{
    if has_some_called(here.setting.table, class, release.name) {
        refusals.refuse(SpecKind::WrongArity, release.place);
    } else {
        refusals.refuse(SpecKind::UnknownName, release.name_place);
    }
}
