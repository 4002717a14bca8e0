// Targets, assignments and local variables: the first form that is not built.

ghost use Rattle.std.specs.Prelude.{◌≡◌, map};
ghost use Rattle.text_phases.specs.Built.{unbuilt_in_step, unbuilt_in_steps, unbuilt_in_target, unbuilt_in_assignment, unbuilt_in_assignments, unbuilt_in_each_local, unbuilt_in_locals};
ghost use Rattle.vdm_tree.specs.StmtView.{target_step_view, target_view, assignment_view, local_view, dcl_view};

use crate::definitions::unbuilt_if_given;
use built_exprs::unbuilt_in_expr;
use vdm_kinds::Place;
use vdm_tree::{Assignment, Dcl, Local, Target, TargetStep};

// ---- targets

fn unbuilt_in_step(step: &TargetStep) -> Option<Place>
    ensures { result ≡ unbuilt_in_step (target_step_view step.now) }
{
    match step {
        TargetStep::Field(_, _, _) => None,
        TargetStep::Element(index, _) => unbuilt_in_expr(index),
    }
}

fn unbuilt_in_steps(steps: &[TargetStep]) -> Option<Place>
    ensures { result ≡ unbuilt_in_steps (map target_step_view steps.now) }
{
    for step in steps {
        if let Some(place) = unbuilt_in_step(step) {
            return Some(place);
        }
    }
    None
}

/// Where the first form stands that is not built in what is written to.
pub(crate) fn unbuilt_in_target(target: &Target) -> Option<Place>
    ensures { result ≡ unbuilt_in_target (target_view target.now) }
{
    match target {
        Target::Name(_, steps, _) => unbuilt_in_steps(steps),
        Target::Qualified(_, _, _, steps, _) => unbuilt_in_steps(steps),
    }
}

// ---- assignments

fn unbuilt_in_assignment(assignment: &Assignment) -> Option<Place>
    ensures { result ≡ unbuilt_in_assignment (assignment_view assignment.now) }
{
    unbuilt_in_target(&assignment.target).or(unbuilt_in_expr(&assignment.value))
}

/// Where the first form stands that is not built in assignments that are made at once.
pub(crate) fn unbuilt_in_assignments(assignments: &[Assignment]) -> Option<Place>
    ensures { result ≡ unbuilt_in_assignments (map assignment_view assignments.now) }
{
    for assignment in assignments {
        if let Some(place) = unbuilt_in_assignment(assignment) {
            return Some(place);
        }
    }
    None
}

// ---- local variables

fn unbuilt_in_each_local(locals: &[Local]) -> Option<Place>
    ensures { result ≡ unbuilt_in_each_local (map local_view locals.now) }
{
    for local in locals {
        if let Some(place) = unbuilt_if_given(&local.initial) {
            return Some(place);
        }
    }
    None
}

/// Where the first form stands that is not built in the initial values of local variables.
pub(crate) fn unbuilt_in_locals(dcls: &[Dcl]) -> Option<Place>
    ensures { result ≡ unbuilt_in_locals (map dcl_view dcls.now) }
{
    for dcl in dcls {
        if let Some(place) = unbuilt_in_each_local(&dcl.locals) {
            return Some(place);
        }
    }
    None
}
