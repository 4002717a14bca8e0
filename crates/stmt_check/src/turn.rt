// One turn.

ghost use Rattle.std.specs.Prelude.{◌≡◌, ◌++◌, ◌∷◌, [], IfOk};
ghost use Rattle.spec_checks.specs.Statements.{done};
ghost use Rattle.stmt_kinds.specs.Below.check_scopes.specs.Told.{first_in};
ghost use Rattle.stmt_kinds.specs.Below.stmt_scopes.specs.Refused.{refused};
ghost use Rattle.stmt_kinds.specs.Below.stmt_pending.specs.Meant.{under};
ghost use Rattle.stmt_check.specs.Checks.{state_check, turn_check};

use crate::state::{State, Turn};
use std::alloc::Global;
use stmt_kinds::handed::check_scopes::{Refusals, Setting};
use stmt_kinds::handed::stmt_pending::{Next, Pending};
use stmt_kinds::handed::stmt_scopes::Returned;
use stmt_kinds::pending_next;
use vdm_kinds::OutOfMemory;

/// A turn brings the check nearer to its end.
pub(crate) fn take_turn<'t>(
    alloc: Global,
    setting: Setting<'_>,
    returned: &Returned,
    state: State<'t>,
    refusals: &mut Refusals,
) -> Result<Turn<'t>, OutOfMemory>
    ensures { IfOk result (λ turn. refused (first_in refusals.old) (state_check setting.entry returned.now state.entry) ≡ refused (first_in refusals.new) (turn_check setting.entry returned.now turn)) }
{
    let State { next, stack } = state;
    match next {
        Next::Nothing => popped(alloc, setting, returned, stack, refusals),
        Next::One(pending) => {
            let next = pending_next(alloc, setting, returned, pending, refusals)?;
            Ok(Turn::Goes(State { next, stack }))
        }
        Next::Two(pending, rest) => {
            let next = pending_next(alloc, setting, returned, pending, refusals)?;
            let state = pushed(next, stack, rest)?;
            Ok(Turn::Goes(state))
        }
    }
}

// Nothing is left of what is above the topmost.
fn popped<'t>(
    alloc: Global,
    setting: Setting<'_>,
    returned: &Returned,
    stack: Vec<Pending<'t>>,
    refusals: &mut Refusals,
) -> Result<Turn<'t>, OutOfMemory>
    ensures { IfOk result (λ turn. refused (first_in refusals.old) (under setting.entry returned.now stack.entry.items done) ≡ refused (first_in refusals.new) (turn_check setting.entry returned.now turn)) }
{
    let mut stack = stack;
    match stack.pop() {
        Some(pending) => {
            let next = pending_next(alloc, setting, returned, pending, refusals)?;
            Ok(Turn::Goes(State { next, stack }))
        }
        None => Ok(Turn::Ends),
    }
}

// One more that is still to be checked.
fn pushed<'t>(
    next: Next<'t>,
    stack: Vec<Pending<'t>>,
    rest: Pending<'t>,
) -> Result<State<'t>, OutOfMemory>
    ensures next { IfOk result (λ state. state.next ≡ next.entry) }
    ensures stack { IfOk result (λ state. state.stack.items ≡ stack.entry.items ++ rest.entry ∷ []) }
{
    let mut stack = stack;
    stack.push(rest)?;
    Ok(State { next, stack })
}
