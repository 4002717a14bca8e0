// Threads of classes.

ghost use Rattle.std.specs.Prelude.{◌≡◌, OnOk, option_map};
ghost use Rattle.spec_checks.specs.Definitions.{thread_faults};
ghost use Rattle.class_checks.specs.Results.{first_among};
ghost use Rattle.part_checks.specs.Below.check_scopes.specs.Told.{first_in, scope_view};
ghost use Rattle.part_checks.specs.Below.check_frames.specs.Meant.{scope_here, spec_here};
ghost use Rattle.expr_tree.specs.View.{boxed_view};
ghost use Rattle.vdm_tree.specs.ClassView.{phase_view, thread_view};
ghost use Rattle.part_checks.specs.Below.definition_scopes.specs.Standing.{spec_at};
ghost use Rattle.sync_checks.specs.Threads.{periodic_in, thread_in};

use crate::numbers::{Bounds, MOST_TICKS, refuse_tick};
use crate::phases::refuse_maybe_phase;
use crate::releases::{Release, refuse_release};
use class_checks::Reach;
use expr_tree::Expr;
use part_checks::handed::check_frames::Here;
use part_checks::handed::check_scopes::{Refusals, Scope, Setting};
use part_checks::handed::definition_scopes::{Site, in_class};
use stmt_check::handed::stmt_scopes::Returned;
use stmt_check::refuse_stmt;
use vdm_kinds::OutOfMemory;
use vdm_tree::{Phase, Thread};

/// Notes what is refused in the thread of a class.
pub fn refuse_thread(
    site: Site<'_>,
    thread: &Thread,
    refusals: &mut Refusals,
) -> Result<(), OutOfMemory>
    ensures { OnOk result (first_in refusals.new ≡ first_among (first_in refusals.old) (thread_faults (spec_at site.entry) site.entry.class (thread_view thread.now))) }
{
    let scope = in_class(site.class, Reach::Free);
    refuse_thread_in(site, &scope, thread, refusals)
}

fn refuse_thread_in(
    site: Site<'_>,
    scope: &Scope,
    thread: &Thread,
    refusals: &mut Refusals,
) -> Result<(), OutOfMemory>
    ensures { OnOk result (first_in refusals.new ≡ first_among (first_in refusals.old) (thread_in (spec_at site.entry) (scope_view scope.now) (thread_view thread.now))) }
{
    let here = Here {
        alloc: site.alloc,
        setting: Setting {
            table: site.table,
            scope,
        },
        locals: &scope.locals,
    };
    match thread {
        Thread::Procedural(body) => refuse_stmt(here, &Returned::Anything, body, refusals),
        Thread::Periodic(period, phase, name, name_place, place) => {
            let release = Release {
                name: *name,
                name_place: *name_place,
                place: *place,
            };
            refuse_periodic(here, period, phase, release, refusals)
        }
    }
}

fn refuse_periodic(
    here: Here<'_>,
    period: &Box<Expr>,
    phase: &Option<Phase>,
    release: Release,
    refusals: &mut Refusals,
) -> Result<(), OutOfMemory>
    ensures { OnOk result (first_in refusals.new ≡ first_among (first_in refusals.old) (periodic_in (spec_here here.entry) (scope_here here.entry) (boxed_view period.now) (option_map phase_view phase.now) release.name release.name_place release.place)) }
{
    let bounds = Bounds {
        least: 1,
        greatest: MOST_TICKS,
    };
    refuse_tick(here, bounds, period, refusals)?;
    refuse_maybe_phase(here, period, phase, refusals)?;
    refuse_release(here, release, refusals);
    Ok(())
}
