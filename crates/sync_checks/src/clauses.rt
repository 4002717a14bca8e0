// Clauses of synchronisation.

ghost use Rattle.std.specs.Prelude.{◌≡◌, OnOk};
ghost use Rattle.spec_checks.specs.Definitions.{sync_faults};
ghost use Rattle.class_checks.specs.Members.{uncounted};
ghost use Rattle.class_checks.specs.Results.{first_among};
ghost use Rattle.class_checks.specs.Scopes.{Locals as LocalForms};
ghost use Rattle.class_checks.specs.declared.reach.Reach.TheVariants.{Guard};
ghost use Rattle.part_checks.specs.Below.check_scopes.specs.Told.{first_in, scope_at, scope_view, spec_in};
ghost use Rattle.expr_tree.specs.View.{boxed_view};
ghost use Rattle.vdm_tree.specs.ClassView.{sync_view};
ghost use Rattle.part_checks.specs.Below.definition_scopes.specs.Standing.{spec_at};
ghost use Rattle.sync_checks.specs.Threads.{clause_in, permission_in, unnamed_in};

use class_checks::Reach;
use expr_tree::Expr;
use part_checks::handed::check_names::history;
use part_checks::handed::check_scopes::{Refusals, Scope, Setting};
use part_checks::handed::definition_scopes::{Site, in_class};
use part_checks::refuse_condition_at;
use vdm_kinds::{NameAt, OutOfMemory, Place};
use vdm_tree::Sync;

/// Notes what is refused in a clause of synchronisation.
pub fn refuse_clause(
    site: Site<'_>,
    clause: &Sync,
    refusals: &mut Refusals,
) -> Result<(), OutOfMemory>
    ensures { OnOk result (first_in refusals.new ≡ first_among (first_in refusals.old) (sync_faults (spec_at site.entry) site.entry.class (sync_view clause.now))) }
{
    let scope = in_class(site.class, Reach::Guard);
    refuse_clause_in(site, &scope, clause, refusals)
}

fn refuse_clause_in(
    site: Site<'_>,
    scope: &Scope,
    clause: &Sync,
    refusals: &mut Refusals,
) -> Result<(), OutOfMemory>
    requires { scope.now.reach ≡ Guard }
    ensures { OnOk result (first_in refusals.new ≡ first_among (first_in refusals.old) (clause_in (spec_at site.entry) (scope_view scope.now) (sync_view clause.now))) }
{
    match clause {
        Sync::Permission(name, name_place, condition, _) => {
            let named = NameAt {
                name: *name,
                place: *name_place,
            };
            refuse_permission(site, scope, named, condition, refusals)
        }
        Sync::MutexAll(_) => Ok(()),
        Sync::MutexOf(names, place) => {
            let setting = Setting {
                table: site.table,
                scope,
            };
            refuse_uncounted(setting, names.as_slice(), *place, refusals);
            Ok(())
        }
    }
}

// `per op => e`
fn refuse_permission(
    site: Site<'_>,
    scope: &Scope,
    named: NameAt,
    condition: &Box<Expr>,
    refusals: &mut Refusals,
) -> Result<(), OutOfMemory>
    requires { scope.now.reach ≡ Guard }
    ensures { OnOk result (first_in refusals.new ≡ first_among (first_in refusals.old) (permission_in (spec_at site.entry) (scope_view scope.now) named.name named.place (boxed_view condition.now))) }
{
    let setting = Setting {
        table: site.table,
        scope,
    };
    refuse_unnamed(setting, named, refusals);
    refuse_condition_at(site, scope, &scope.locals, condition, refusals)
}

// Refuses a name that is not that of an operation whose history is counted.
fn refuse_unnamed(setting: Setting<'_>, named: NameAt, refusals: &mut Refusals)
    requires { setting.scope.now.reach ≡ Guard }
    ensures { first_in refusals.new ≡ first_among (first_in refusals.old) (unnamed_in (spec_in setting.entry) (scope_view setting.entry.scope.now) named.name named.place) }
{
    refuse_uncounted(setting, &[named], named.place, refusals);
}

// Refuses those names that are not those of operations whose history is counted. A counter may stand in a predicate, so nothing
// but its names can be refused there.
fn refuse_uncounted(setting: Setting<'_>, names: &[NameAt], place: Place, refusals: &mut Refusals)
    requires { setting.scope.now.reach ≡ Guard }
    ensures { (bound : LocalForms) → first_in refusals.new ≡ first_among (first_in refusals.old) (uncounted (spec_in setting.entry) (scope_at setting.entry bound) names.now) }
{
    history(setting, refusals, names, place);
}
