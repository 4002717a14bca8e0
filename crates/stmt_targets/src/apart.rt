// Several assignments at once.

ghost use Rattle.std.specs.Prelude.{◌≡◌, map};
ghost use Rattle.vdm_kinds.specs.declared.spec_kind.SpecKind.TheVariants.{LeftOut};
ghost use Rattle.abstract_syntax.specs.Statements.{target_place};
ghost use Rattle.vdm_tree.specs.StmtView.{assignment_view, target_view};
ghost use Rattle.class_checks.specs.Results.{first_among, refused_if};
ghost use Rattle.spec_checks.specs.Targets.{apart_faults, first_owned, is_apart, nothing_owned, written};
ghost use Rattle.target_steps.specs.Below.check_scopes.specs.Told.{first_in};
ghost use Rattle.target_steps.specs.Below.check_frames.specs.Meant.{spec_here};
ghost use Rattle.target_steps.specs.Below.stmt_scopes.specs.Standing.{stands_here};
ghost use Rattle.stmt_targets.specs.Naming.{owned_view};

use crate::named::owned_by;
use crate::owned::{Owned, first_owned, is_apart};
use crate::targets::{place_of_target, target_named};
use target_steps::handed::check_scopes::Refusals;
use target_steps::handed::stmt_scopes::Stands;
use vdm_kinds::SpecKind;
use vdm_tree::{Assignment, Target};

/// Notes the targets that can't be written at once: all of them have to be variables of the object itself, or static ones of one
/// class. The first that is of the object or of a class decides for all behind it.
pub fn refuse_apart(stands: Stands<'_>, assignments: &[Assignment], refusals: &mut Refusals)
    ensures { first_in refusals.new ≡ first_among (first_in refusals.old) (apart_faults (spec_here stands.entry.here) (stands_here stands.entry) nothing_owned (map assignment_view assignments.now)) }
{
    let mut first = Owned::Nothing;
    for assignment in assignments {
        first = refuse_beside(stands, first, &assignment.target, refusals);
    }
}

// A target behind others; gives the first that decides.
fn refuse_beside(
    stands: Stands<'_>,
    first: Owned,
    target: &Target,
    refusals: &mut Refusals,
) -> Owned
    ensures apart { first_in refusals.new ≡ first_among (first_in refusals.old) (refused_if (is_apart (owned_view first) (written (spec_here stands.entry.here) (stands_here stands.entry) (target_view target.now)).owned) LeftOut (target_place (target_view target.now))) }
    ensures first { owned_view result ≡ first_owned (owned_view first) (written (spec_here stands.entry.here) (stands_here stands.entry) (target_view target.now)).owned }
{
    let owned = owned_by(target_named(stands, target));
    let apart = is_apart(first, owned);
    refusals.refuse_if(apart, SpecKind::LeftOut, place_of_target(target));
    first_owned(first, owned)
}
