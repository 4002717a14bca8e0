// Values that are tested against types.

ghost use Rattle.std.specs.Prelude.{◌≡◌, IfOk, option_map};
ghost use Rattle.type_tree.specs.TypeView.{type_view};
ghost use Rattle.type_meaning.specs.Tests.{fitting};
ghost use Rattle.spec_table.specs.Tables.{table_spec};
ghost use Rattle.node_meaning.specs.Fitting.{fit_then, fitted, fitted_maybe};
ghost use Rattle.node_meaning.specs.Needs.{Asker};
ghost use Rattle.eval_data.specs.Parts.{maybe_type, nest_of};
ghost use Rattle.eval_data.specs.Steps.{verdict_of};
ghost use Rattle.fit_steps.specs.Tests.{tested_code, under, wanted};

use crate::advancing::begun;
use crate::tested::Tested;
use crate::verdicts::{fits, wrong_type};
use bind_steps::type_scope;
use conform::{Test, tests_of};
use eval_data::{Nest, Verdict};
use expr_tree::TypeExpr;
use spec_table::ClassTable;
use std::alloc::Global;
use vdm_kinds::{Name, OutOfMemory, Place};
use vdm_values::{Slot, Value};

/// A value is tested against a type in the class of a node.
pub fn fitted<'t>(
    alloc: Global,
    table: &'t ClassTable,
    locals: &mut Vec<(Name, Slot)>,
    nest: Nest,
    scope: Option<Name>,
    declared: &'t TypeExpr,
    place: Place,
    value: Value,
) -> Result<Tested<'t>, OutOfMemory>
    ensures { IfOk result (λ t. (asker : Asker) → tested_code (under (table_spec table.entry.now) asker) place locals.new.items t ≡ fitted (table_spec table.entry.now) (nest_of nest) scope (type_view declared.entry.now) place value locals.old.items) }
{
    let tests = tests_of(alloc, &value, type_scope(scope), declared, table)?;
    let verdict = Verdict::Passes(value);
    judged(alloc, table, locals, nest, place, verdict, tests)
}

/// ... where a type is given.
pub fn fitted_maybe<'t>(
    alloc: Global,
    table: &'t ClassTable,
    locals: &mut Vec<(Name, Slot)>,
    nest: Nest,
    scope: Option<Name>,
    declared: Option<&'t TypeExpr>,
    place: Place,
    value: Value,
) -> Result<Tested<'t>, OutOfMemory>
    ensures { IfOk result (λ t. (asker : Asker) → tested_code (under (table_spec table.entry.now) asker) place locals.new.items t ≡ fitted_maybe (table_spec table.entry.now) (nest_of nest) scope (maybe_type declared.entry) place value locals.old.items) }
{
    match declared {
        Some(declared) => fitted(alloc, table, locals, nest, scope, declared, place, value),
        None => Ok(Tested::Gives(value)),
    }
}

/// What is done with a value for which these tests have to hold; none where it has another shape.
pub(crate) fn judged<'t>(
    alloc: Global,
    table: &'t ClassTable,
    locals: &mut Vec<(Name, Slot)>,
    nest: Nest,
    place: Place,
    verdict: Verdict,
    tests: Option<Vec<Test<'t>>>,
) -> Result<Tested<'t>, OutOfMemory>
    ensures { IfOk result (λ t. (asker : Asker) → tested_code (under (table_spec table.entry.now) asker) place locals.new.items t ≡ fit_then (table_spec table.entry.now) (nest_of nest) place (verdict_of verdict place locals.old.items) (fitting (wanted (table_spec table.entry.now) (option_map (λ ts. ts.items) tests.entry)))) }
{
    match tests {
        None => Ok(wrong_type(verdict)),
        Some(tests) => {
            if tests.len() == 0 {
                Ok(fits(verdict))
            } else {
                begun(alloc, table, locals, nest, place, verdict, tests)
            }
        }
    }
}
