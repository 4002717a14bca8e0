// The check of a specification, and of the expression of a run.

ghost use Rattle.std.specs.Prelude.{◌≡◌, None, Some, Err, IfOk};
ghost use Rattle.vdm_kinds.specs.declared.halt.Halt as Halt;
ghost use Rattle.vdm_kinds.specs.declared.spec_fault.SpecFault.{SpecFault};
ghost use Rattle.expr_tree.specs.View.{view_of};
ghost use Rattle.spec_checks.specs.Definitions.{spec_fault};
ghost use Rattle.spec_checks.specs.Threads.{run_fault};
ghost use Rattle.class_checks.specs.WellTyped.{main_fault};
ghost use Rattle.sync_checks.specs.Below.spec_table.specs.Tables.{table_spec};
ghost use Rattle.spec_check.specs.Fine.{checked_table, checked_tree};

use crate::checked::{Checked, CheckedExpr};
use crate::classes::refuse_spec;
use crate::left_out::left_out_block;
use expr_tree::Expr;
use std::alloc::Global;
use sync_checks::handed::check_scopes::Refusals;
use sync_checks::handed::definition_scopes::of_run;
use sync_checks::handed::spec_table::ClassTable;
use sync_checks::handed::type_check::check_expr;
use type_forms::Form;
use vdm_kinds::{Halt, OutOfMemory, SpecFault};

/// The table as it was, where nothing is refused of its specification; or the first refusal: at the first place in text order, and
/// there the one with the least number.
#[tactic(auto, using(crate::proofs::FineLemmas::none_is_fine))]
pub fn check_spec(alloc: Global, table: ClassTable) -> Result<Checked, Halt<SpecFault>>
    ensures table { IfOk result (λ checked. checked_table checked ≡ table) }
    ensures well_typed { IfOk result (λ checked. spec_fault (table_spec table) ≡ None) }
    ensures refused { (fault : SpecFault) → result ≡ Err (Halt.Of fault) → spec_fault (table_spec table) ≡ Some fault }
{
    match spec_fault(alloc, &table)? {
        Some(fault) => Err(Halt::Of(fault)),
        None => Ok(Checked { table }),
    }
}

// The first refusal of a specification.
fn spec_fault(alloc: Global, table: &ClassTable) -> Result<Option<SpecFault>, OutOfMemory>
    ensures { IfOk result (λ found. found ≡ spec_fault (table_spec table.now)) }
{
    let mut refusals = Refusals::new();
    refuse_spec(alloc, table, &mut refusals)?;
    Ok(refusals.first())
}

/// The expression of a run, where nothing is refused of it and its specification has neither threads nor synchronisation; or the
/// first refusal, which such a block is before any of the expression.
pub fn check_main(alloc: Global, checked: &Checked, e: Expr) -> Result<CheckedExpr, Halt<SpecFault>>
    ensures expr { IfOk result (λ found. checked_tree found ≡ view_of e) }
    ensures well_typed { IfOk result (λ found. run_fault (table_spec (checked_table checked.now)) (view_of e) ≡ None) }
    ensures refused { (fault : SpecFault) → result ≡ Err (Halt.Of fault) → run_fault (table_spec (checked_table checked.now)) (view_of e) ≡ Some fault }
{
    match run_form(alloc, checked, &e) {
        Ok(_form) => Ok(CheckedExpr { expr: e }),
        Err(halt) => Err(halt),
    }
}

fn run_form(alloc: Global, checked: &Checked, e: &Expr) -> Result<Form, Halt<SpecFault>>
    ensures well_typed { IfOk result (λ form. run_fault (table_spec (checked_table checked.now)) (view_of e.now) ≡ None) }
    ensures refused { (fault : SpecFault) → result ≡ Err (Halt.Of fault) → run_fault (table_spec (checked_table checked.now)) (view_of e.now) ≡ Some fault }
{
    match left_out_block(checked.table()) {
        Some(fault) => Err(Halt::Of(fault)),
        None => main_form(alloc, checked, e),
    }
}

fn main_form(alloc: Global, checked: &Checked, e: &Expr) -> Result<Form, Halt<SpecFault>>
    ensures well_typed { IfOk result (λ form. main_fault (table_spec (checked_table checked.now)) (view_of e.now) ≡ None) }
    ensures refused { (fault : SpecFault) → result ≡ Err (Halt.Of fault) → main_fault (table_spec (checked_table checked.now)) (view_of e.now) ≡ Some fault }
{
    let scope = of_run();
    check_expr(alloc, checked.table(), &scope, e)
}
