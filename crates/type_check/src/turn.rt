// One turn.

ghost use Rattle.std.specs.Prelude.{◌≡◌, ◌++◌, ◌∷◌, [], IfOk};
ghost use Rattle.expr_tree.specs.View.{view_of};
ghost use Rattle.class_checks.specs.Expressions.{check};
ghost use Rattle.class_checks.specs.Results.{gives};
ghost use Rattle.check_named.specs.Below.check_scopes.specs.Told.{first_in, spec_in, told};
ghost use Rattle.check_named.specs.Below.check_frames.specs.Meant.{at, next_check, under};
ghost use Rattle.type_check.specs.Checks.{state_check, turn_check};

use crate::exprs::expr_next;
use crate::state::{State, Turn};
use check_named::handed::check_frames::{Frame, Here, Next};
use check_named::handed::check_scopes::{Locals, Refusals, Setting};
use check_parts::{after_next, frame_next};
use expr_tree::Expr;
use std::alloc::Global;
use type_forms::Form;
use vdm_kinds::OutOfMemory;

/// A turn brings the check nearer to its end.
pub(crate) fn take_turn<'t>(
    alloc: Global,
    setting: Setting<'_>,
    state: State<'t>,
    refusals: &mut Refusals,
) -> Result<Turn<'t>, OutOfMemory>
    ensures { IfOk result (λ turn. told (first_in refusals.old) (state_check setting.entry state.entry) ≡ told (first_in refusals.new) (turn_check setting.entry turn)) }
{
    let State { next, frames } = state;
    match next {
        Next::Gives(form) => given(alloc, setting, form, frames, refusals),
        Next::Part(part, locals, frame) => {
            let next = begun(alloc, setting, part, &locals, refusals)?;
            let state = pushed(next, frames, frame)?;
            Ok(Turn::Goes(state))
        }
        Next::Goes(after) => {
            let next = after_next(alloc, setting, after, refusals)?;
            Ok(Turn::Goes(State { next, frames }))
        }
        Next::Becomes(expr, locals) => {
            let next = begun(alloc, setting, expr, &locals, refusals)?;
            Ok(Turn::Goes(State { next, frames }))
        }
    }
}

// The form of what is above the topmost frame.
fn given<'t>(
    alloc: Global,
    setting: Setting<'_>,
    form: Form,
    frames: Vec<Frame<'t>>,
    refusals: &mut Refusals,
) -> Result<Turn<'t>, OutOfMemory>
    ensures { IfOk result (λ turn. told (first_in refusals.old) (under setting.entry frames.entry.items (gives form)) ≡ told (first_in refusals.new) (turn_check setting.entry turn)) }
{
    let mut frames = frames;
    match frames.pop() {
        Some(frame) => {
            let next = frame_next(alloc, setting, frame, form, refusals)?;
            Ok(Turn::Goes(State { next, frames }))
        }
        None => Ok(Turn::Ends(form)),
    }
}

// What comes first of an expression.
fn begun<'t>(
    alloc: Global,
    setting: Setting<'_>,
    expr: &'t Expr,
    locals: &Locals,
    refusals: &mut Refusals,
) -> Result<Next<'t>, OutOfMemory>
    ensures { IfOk result (λ next. told (first_in refusals.old) (check (spec_in setting.entry) (at setting.entry locals.now) (view_of expr.entry.now)) ≡ told (first_in refusals.new) (next_check setting.entry next)) }
{
    let here = Here {
        alloc,
        setting,
        locals,
    };
    expr_next(here, expr, refusals)
}

// A frame more.
fn pushed<'t>(
    next: Next<'t>,
    frames: Vec<Frame<'t>>,
    frame: Frame<'t>,
) -> Result<State<'t>, OutOfMemory>
    ensures next { IfOk result (λ state. state.next ≡ next.entry) }
    ensures frames { IfOk result (λ state. state.frames.items ≡ frames.entry.items ++ frame.entry ∷ []) }
{
    let mut frames = frames;
    frames.push(frame)?;
    Ok(State { next, frames })
}
