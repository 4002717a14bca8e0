// A run from its beginning to its end.

ghost use Rattle.std.specs.Prelude.{◌≡◌, [], ◌∷◌, ◌++◌, List, None, Some, IfOk, IfSome, option_map};
ghost use Rattle.run_journal.specs.declared.entry.Entry.{Entry as EntryView};
ghost use Rattle.plain_state.specs.Entered.{journal};
ghost use Rattle.plain_state.specs.Finishes.{finishes};
ghost use Rattle.spec_table.specs.Tables.{table_spec};
ghost use Rattle.stmt_exec.specs.Standing.{rest};
ghost use Rattle.vdm_legal.specs.Order.{IsInOrder};
ghost use Rattle.vdm_legal.specs.Finishes.{finish_of};
ghost use Rattle.vdm_meaning.specs.Runs.{IsRun};
ghost use Rattle.expr_tree.specs.View.{view_of};
ghost use Rattle.plain_run.specs.Turns.{GoesOn};

use crate::turn::turn;
use expr_tree::Expr;
use plain_state::{Finish, Store, decided};
use run_journal::{EntryList, Thread};
use spec_table::ClassTable;
use std::alloc::Global;
use stmt_exec::Machine;
use vdm_kinds::OutOfMemory;
use vdm_names::Names;

/// The journal of a run, and how it ended: `None` where memory was wanting.
#[derive(Drop)]
pub struct Ran {
    pub journal: EntryList,
    pub finish: Option<Finish>,
}

/// Runs the expression over the table's specification, with so many units for main, to the end or until memory is wanting. The names are
/// those of both texts.
pub fn run(alloc: Global, names: &Names, table: &ClassTable, tree: &Expr, steps: u64) -> Ran
    ensures run { IsRun names.now (table_spec table.now) (view_of tree.now) steps result.journal }
    ensures order { IsInOrder (table_spec table.now) result.journal }
    ensures finish { IfSome result.finish (λ f. finish_of result.journal ≡ Some (finishes f)) }
{
    let mut store = Store::new(alloc);
    let finish = run_to_end(alloc, names, table, tree, steps, &mut store);
    Ran {
        finish: finish.ok(),
        journal: store.into_journal(),
    }
}

/// Runs to the end. Where memory is wanting the entries so far are kept.
fn run_to_end(
    alloc: Global,
    names: &Names,
    table: &ClassTable,
    tree: &Expr,
    steps: u64,
    store: &mut Store,
) -> Result<Finish, OutOfMemory>
    requires empty { journal store.old ≡ [] }
    ensures run { IsRun names.now (table_spec table.now) (view_of tree.now) steps (journal store.new) }
    ensures order { IsInOrder (table_spec table.now) (journal store.new) }
    ensures finish { IfOk result (λ f. finish_of (journal store.new) ≡ Some (finishes f)) }
{
    let mut machine = Machine::main(alloc, names, table, tree, steps)?;
    take_turns(alloc, names, table, tree, steps, &mut machine, store)
}

/// Answers the questions of main's machine until an entry decides the run.
fn take_turns(
    alloc: Global,
    names: &Names,
    table: &ClassTable,
    tree: &Expr,
    steps: u64,
    machine: &mut Machine<'_>,
    store: &mut Store,
) -> Result<Finish, OutOfMemory>
    requires { GoesOn names.now (table_spec table.now) (view_of tree.now) steps (journal store.old) (rest machine.old) }
    ensures run { IsRun names.now (table_spec table.now) (view_of tree.now) steps (journal store.new) }
    ensures order { IsInOrder (table_spec table.now) (journal store.new) }
    ensures finish { IfOk result (λ f. finish_of (journal store.new) ≡ Some (finishes f)) }
{
    'turns: loop {
        turn(alloc, table, Thread::Main, machine, store)?;
        if let Some(finish) = last_decided(alloc, store.entries())? {
            return Ok(finish);
        }
    }
}

/// How the entries end that went on before the last of them.
fn last_decided(alloc: Global, entries: &EntryList) -> Result<Option<Finish>, OutOfMemory>
    ensures { IfOk result (λ f. (before : List EntryView) → (last : EntryView)
        → entries.now ≡ before ++ last ∷ []
        → finish_of before ≡ None
        → option_map finishes f ≡ finish_of entries.now) }
{
    match entries.as_slice().split_last() {
        Some((last, _)) => decided(alloc, last),
        None => Ok(None),
    }
}
