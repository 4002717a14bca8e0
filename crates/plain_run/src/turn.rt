// A turn of a thread: what it asks is answered, and it goes on with the answer.

ghost use Rattle.std.specs.Prelude.{◌≡◌, ◌≢◌, ◌<◌, ◌⊎◌, [], OnErr, OnOk};
ghost use Rattle.run_journal.specs.declared.question.Question.{Question as QuestionView};
ghost use Rattle.spec_table.specs.Tables.{table_spec};
ghost use Rattle.stmt_exec.specs.Standing.{rank, rest};
ghost use Rattle.vdm_meaning.specs.Main.{asks, over};
ghost use Rattle.plain_state.specs.Entered.{journal};
ghost use Rattle.plain_state.specs.Readiness.{IsReadyFor};
ghost use Rattle.plain_run.specs.Turns.{IsAnswered, TakesTurn};

use plain_state::Store;
use run_journal::Thread;
use spec_table::ClassTable;
use std::alloc::Global;
use stmt_exec::Machine;
use vdm_kinds::OutOfMemory;

/// Answers what the machine of the thread asks, enters the entry, and lets the machine go on with the answer.
///
/// # Errors
/// Where memory is refused: the entry stands where the machine could not go on.
pub(crate) fn turn(
    alloc: Global,
    table: &ClassTable,
    thread: Thread,
    machine: &mut Machine<'_>,
    store: &mut Store,
) -> Result<(), OutOfMemory>
    requires asks { rest machine.old [] ≢ over }
    requires ready { (question : QuestionView)
        → rest machine.old [] ≡ asks question
        → IsReadyFor (table_spec table.now) thread (journal store.old) question }
    ensures ok { OnOk result
        (TakesTurn (table_spec table.now) thread (journal store.old) (journal store.new) (rest machine.old) (rest machine.new)) }
    ensures falls { OnOk result (rank machine.new < rank machine.old) }
    ensures err { OnErr result ((journal store.new ≡ journal store.old)
        ⊎ IsAnswered (table_spec table.now) thread (journal store.old) (journal store.new) (rest machine.old [])) }
{
    let question = machine.next(alloc)?;
    let answer = store.answer(alloc, table, thread, question)?;
    machine.answer(alloc, answer)?;
    Ok(())
}
