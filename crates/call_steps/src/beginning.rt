// What a call does once it is granted, up to its parameters.

ghost use Rattle.std.specs.Prelude.{◌≡◌, ◌≤◌, ◌<◌, ◌+◌, ◌∷◌, [], ◌++◌, IfOk, MatchOption, drop, length, map};
ghost use Rattle.abstract_syntax.specs.Classes.{SpecTree};
ghost use Rattle.node_meaning.specs.Envs.{Locals, old_name as name_of_old};
ghost use Rattle.node_meaning.specs.Needs.{slot_in as slot_of};
ghost use Rattle.stmt_meaning.specs.Calls.{begins};
ghost use Rattle.spec_table.specs.Tables.{table_spec};
ghost use Rattle.step_data.specs.Actions.{action_code, busy, height};
ghost use Rattle.step_data.specs.Callings.{calling_of, olds_of, read_from};

use crate::parameters::binds;
use name_steps::old_name;
use run_journal::Answer;
use spec_table::ClassTable;
use std::alloc::Global;
use step_data::{Action, Asking, Calling, Old};
use vdm_kinds::{Name, OutOfMemory, RunFault};
use vdm_values::Slot;

/// What follows the activation: the call begins. A permission that failed is a fault at the call.
pub fn activated<'t>(call: Box<Calling<'t>>, answer: Answer) -> Action<'t>
    ensures same { (spec : SpecTree) (locals : Locals) → action_code spec locals result ≡ begins spec (calling_of call.entry.value) (olds_of call.entry.value) locals answer }
    ensures falls { height result ≤ 4 + length call.entry.value.olds.items }
{
    match answer {
        Answer::Inner(_) => Action::Fail(RunFault::GuardFault, call.place),
        _ => Action::Begin(call),
    }
}

/// What a call that begins does first, among no locals: it reads what stands with `~` in `post`.
///
/// # Errors
/// Want of memory.
pub fn begun<'t>(
    alloc: Global,
    table: &ClassTable,
    locals: &mut Vec<(Name, Slot)>,
    call: Box<Calling<'t>>,
) -> Result<Action<'t>, OutOfMemory>
    ensures same { IfOk result (λ a. action_code (table_spec table.now) locals.new.items a ≡ read_from (table_spec table.now) call.entry.value 0 locals.old.items) }
    ensures busy { IfOk result (λ a. busy a ≤ 1) }
    ensures falls { IfOk result (λ a. height a ≤ 2 + length call.entry.value.olds.items) }
{
    read_next(alloc, table, locals, call, 0)
}

/// What a variable held was read: those from this number on follow.
///
/// # Errors
/// Want of memory.
pub fn before_read<'t>(
    alloc: Global,
    table: &ClassTable,
    locals: &mut Vec<(Name, Slot)>,
    call: Box<Calling<'t>>,
    old: Old,
    next: usize,
    answer: Answer,
) -> Result<Action<'t>, OutOfMemory>
    ensures same { IfOk result (λ a. action_code (table_spec table.now) locals.new.items a ≡ read_from (table_spec table.now) call.entry.value next (locals.old.items ++ (name_of_old old.name, slot_of answer) ∷ [])) }
    ensures falls { IfOk result (λ a. height a ≤ 1 + length (drop next call.entry.value.olds.items)) }
{
    let name = old_name(old.name)?;
    let slot = shared_slot(alloc, answer)?;
    locals.push((name, slot))?;
    read_next(alloc, table, locals, call, next)
}

/// The slot in an answer, with what it holds shared, since each use of the name is a copy.
fn shared_slot(alloc: Global, answer: Answer) -> Result<Slot, OutOfMemory>
    ensures { IfOk result (λ slot. slot ≡ slot_of answer) }
{
    match answer {
        Answer::Slot(Slot::Held(value)) => Ok(Slot::Held(value.share(alloc)?)),
        Answer::Slot(Slot::Unset) => Ok(Slot::Unset),
        _ => Ok(Slot::Unset),
    }
}

/// The variable of this number is read, or the parameters follow.
fn read_next<'t>(
    alloc: Global,
    table: &ClassTable,
    locals: &mut Vec<(Name, Slot)>,
    call: Box<Calling<'t>>,
    next: usize,
) -> Result<Action<'t>, OutOfMemory>
    ensures same { IfOk result (λ a. action_code (table_spec table.now) locals.new.items a ≡ read_from (table_spec table.now) call.entry.value next locals.old.items) }
    ensures busy { IfOk result (λ a. busy a ≤ 1) }
    ensures falls { IfOk result (λ a. height a ≤ 1 + length (drop next call.entry.value.olds.items)) }
{
    match old_at(&call, next) {
        Some((old, behind)) => Ok(Action::Ask(Asking::Before(call, old, behind))),
        None => binds(alloc, table, locals, call),
    }
}

/// The variable of this number, and the number of the one behind it.
fn old_at(call: &Calling<'_>, at: usize) -> Option<(Old, usize)>
    ensures { MatchOption result (drop at call.now.olds.items ≡ []) (λ p. drop at call.now.olds.items ≡ p.0 ∷ drop p.1 call.now.olds.items) }
{
    let olds = call.olds.as_slice();
    if at >= olds.len() {
        return None;
    }
    Some((olds[at], at + 1))
}
