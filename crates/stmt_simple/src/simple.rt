// Statements in which no other stands.

ghost use Rattle.std.specs.Prelude.{◌≡◌, OnOk, map};
ghost use Rattle.vdm_kinds.specs.declared.place.Place.{Place as PlaceOf};
ghost use Rattle.abstract_syntax.specs.Statements.{assign_together};
ghost use Rattle.vdm_tree.specs.StmtView.{assignment_view, stmt_view};
ghost use Rattle.spec_checks.specs.Statements.{check_stmt};
ghost use Rattle.class_checks.specs.Results.{first_among};
ghost use Rattle.stmt_targets.specs.Below.check_scopes.specs.Told.{first_in};
ghost use Rattle.stmt_targets.specs.Below.check_frames.specs.Meant.{spec_here};
ghost use Rattle.stmt_targets.specs.Below.stmt_scopes.specs.Standing.{stands_here};
ghost use Rattle.stmt_topics.specs.Topics.{topic_of};
ghost use Rattle.stmt_topics.specs.declared.topic.Topic.TheVariants.{Simple};

use crate::given_back::{refuse_call, refuse_exit, refuse_return};
use crate::threads::{refuse_start, refuse_start_list};
use stmt_targets::handed::check_scopes::Refusals;
use stmt_targets::handed::stmt_scopes::Stands;
use stmt_targets::{refuse_apart, refuse_assigned, refuse_assignments};
use vdm_kinds::OutOfMemory;
use vdm_tree::{Assignment, Stmt};

/// Notes what is refused in a statement in which no other stands.
pub fn refuse_simple(
    stands: Stands<'_>,
    stmt: &Stmt,
    refusals: &mut Refusals,
) -> Result<(), OutOfMemory>
    requires { topic_of (stmt_view stmt.now) ≡ Simple }
    ensures { OnOk result (first_in refusals.new ≡ first_among (first_in refusals.old) (check_stmt (spec_here stands.entry.here) (stands_here stands.entry) (stmt_view stmt.now)).refusals) }
{
    match stmt {
        Stmt::Assign(target, value, _) => refuse_assigned(stands, target, value, refusals),
        Stmt::AssignTogether(assignments, _) => refuse_together(stands, assignments, refusals),
        Stmt::Call(application, _) => refuse_call(stands, application, refusals),
        Stmt::Return(value, _) => refuse_return(stands, value, refusals),
        Stmt::Exit(value, _) => refuse_exit(stands, value, refusals),
        Stmt::Start(object, _) => refuse_start(stands, object, refusals),
        Stmt::StartList(objects, _) => refuse_start_list(stands, objects, refusals),
        Stmt::Skip(_) => Ok(()),
        Stmt::Error(_) => Ok(()),
        _ => Ok(()),
    }
}

// `atomic(t := a; u := b)`
fn refuse_together(
    stands: Stands<'_>,
    assignments: &Vec<Assignment>,
    refusals: &mut Refusals,
) -> Result<(), OutOfMemory>
    ensures { (place : PlaceOf) → OnOk result (first_in refusals.new ≡ first_among (first_in refusals.old) (check_stmt (spec_here stands.entry.here) (stands_here stands.entry) (assign_together (map assignment_view assignments.now.items) place)).refusals) }
{
    let assignments = assignments.as_slice();
    refuse_apart(stands, assignments, refusals);
    refuse_assignments(stands, assignments, refusals)
}
