// The run of a specification and an expression, and how it ends.

ghost use Rattle.std.specs.Prelude.{◌≡◌, List, Some, IfSome};
ghost use Rattle.run_journal.specs.declared.entry.Entry.{Entry};
ghost use Rattle.vdm_legal.specs.Finishes.{finish_of};
ghost use Rattle.expr_tree.specs.View.{view_of};
ghost use Rattle.text_reader.specs.Below.spec_table.specs.Tables.{table_spec};
ghost use Rattle.vdm_report.specs.Ends.{status_of, HasReportLine};
ghost use Rattle.vdm_cli.specs.RunEnds.{RunsTo, EndsRun};
ghost use Rattle.plain_state.specs.Finishes.{finishes};

use plain_state::Finish;
use std::alloc::Global;
use text_reader::handed::spec_table::ClassTable;
use vdm_names::Names;
use vdm_report::{End, Report};
use vdm_tree::Expr;

/// Runs an expression under the table's specification, with so many units and the names of both texts, and reports the run. Where
/// memory runs out, the entries made so far stay.
pub fn run(
    alloc: Global,
    names: &Names,
    table: &ClassTable,
    tree: &Expr,
    steps: u64,
    log: bool,
) -> Report
    ensures run { RunsTo names.now (table_spec table.now) (view_of tree.now) steps result.journal result.end }
    ensures status { result.status ≡ status_of result.end }
    ensures log { result.log ≡ log }
{
    let ran = plain_run::run(alloc, names, table, tree, steps);
    Report::new(end_after(ran.finish), ran.journal, log)
}

/// The end of a run; where it has no finish, memory was wanting.
fn end_after(finish: Option<Finish>) -> End
    ensures ends { (journal : List Entry) → IfSome finish (λ f. finish_of journal ≡ Some (finishes f)) → EndsRun journal result }
    ensures line { HasReportLine result }
{
    match finish {
        Some(finish) => end_of(finish),
        None => End::OutOfMemory,
    }
}

/// The end of a run that finishes so.
fn end_of(finish: Finish) -> End
    ensures ends { (journal : List Entry) → finish_of journal ≡ Some (finishes finish) → EndsRun journal result }
    ensures line { HasReportLine result }
{
    match finish {
        Finish::Ended(slot) => End::Ended(slot),
        Finish::Failed {
            fault,
            exit,
            thread,
            place,
        } => End::Failed {
            fault,
            exit,
            thread,
            place,
        },
    }
}
