// What is done with what comes of a part of `let`, `def` and `cases`.

ghost use Rattle.std.specs.Prelude.{◌≡◌, IfOk};
ghost use Rattle.node_meaning.specs.Needs.{Asker, Setting};
ghost use Rattle.eval_data.specs.declared.frame.Frame.TheVariants.{Cut};
ghost use Rattle.eval_data.specs.declared.frame.Use.TheVariants.{Defined, Subject};
ghost use Rattle.eval_data.specs.Parts.{flow_of};
ghost use Rattle.eval_data.specs.declared.matching.Met.TheVariants.{Definition};
ghost use Rattle.eval_data.specs.Steps.{code_of, frame_then, meets_with, use_of};
ghost use Rattle.spec_table.specs.Tables.{table_spec};
ghost use Rattle.fit_steps.specs.Tests.{tested_code, under};
ghost use Rattle.node_meaning.specs.Tasks.{with_value};
ghost use Rattle.plans.specs.Plans.{bind};

use crate::alternatives::{first_case, others_of};
use crate::meeting::meets;
use eval_data::{Flow, Frame, Here, Met, MetDefinition, Step, Use};
use expr_tree::{Case, Expr, TypeExpr};
use fit_steps::{Tested, fitted_maybe};
use spec_table::ClassTable;
use std::alloc::Global;
use vdm_kinds::{Name, OutOfMemory, Place};
use vdm_values::{Slot, Value};

/// The value that a definition gives is tested against its type, where one is given, and then meets the pattern.
pub fn definition_met<'t>(
    alloc: Global,
    table: &'t ClassTable,
    locals: &mut Vec<(Name, Slot)>,
    here: Here<'t>,
    declared: Option<&'t TypeExpr>,
    definition: MetDefinition<'t>,
    place: Place,
    value: Value,
) -> Result<Step<'t>, OutOfMemory>
    ensures { IfOk result (λ s. (asker : Asker) → code_of (under (table_spec table.entry.now) asker) locals.new.items s ≡ use_of (under (table_spec table.entry.now) asker) (Defined here.entry declared.entry definition.entry) place value locals.old.items) }
{
    let tested = fitted_maybe(
        alloc, table, locals, here.nest, here.scope, declared, place, value,
    )?;
    behind_test(alloc, table, locals, here, definition, place, tested)
}

/// What is done behind the test of what a definition gives.
fn behind_test<'t>(
    alloc: Global,
    table: &ClassTable,
    locals: &mut Vec<(Name, Slot)>,
    here: Here<'t>,
    definition: MetDefinition<'t>,
    place: Place,
    tested: Tested<'t>,
) -> Result<Step<'t>, OutOfMemory>
    ensures { IfOk result (λ s. (asker : Asker) → code_of (under (table_spec table.now) asker) locals.new.items s ≡ bind (tested_code (under (table_spec table.now) asker) place locals.old.items tested.entry) (with_value place (meets_with (table_spec table.now) (Definition here.entry definition.entry) place))) }
{
    match tested {
        Tested::Gives(value) => {
            definition_fits(alloc, table, locals, here, definition, place, value)
        }
        Tested::Fails(fault) => Ok(Step::Fail(fault, place)),
        Tested::Asks(inside, tree, inner) => {
            Step::definition_test(alloc, inside, tree, inner, here, definition, place)
        }
    }
}

/// The value that a definition gives fits its type, and meets the pattern.
pub fn definition_fits<'t>(
    alloc: Global,
    table: &ClassTable,
    locals: &mut Vec<(Name, Slot)>,
    here: Here<'t>,
    definition: MetDefinition<'t>,
    place: Place,
    value: Value,
) -> Result<Step<'t>, OutOfMemory>
    ensures { IfOk result (λ s. (asker : Asker) → code_of (under (table_spec table.now) asker) locals.new.items s ≡ meets_with (table_spec table.now) (Definition here.entry definition.entry) place value locals.old.items) }
{
    let met = Met::Definition(here, definition);
    meets(alloc, table, locals, met, place, value)
}

/// The subject meets the patterns of the alternatives; so many locals stand before those that these bind.
pub fn subject_met<'t>(
    alloc: Global,
    table: &ClassTable,
    locals: &mut Vec<(Name, Slot)>,
    here: Here<'t>,
    cases: &'t [Case],
    others: &'t Option<Box<Expr>>,
    count: usize,
    place: Place,
    value: Value,
) -> Result<Step<'t>, OutOfMemory>
    ensures { IfOk result (λ s. (asker : Asker) → code_of (record { spec = table_spec table.now; asker = asker }) locals.new.items s ≡ use_of (record { spec = table_spec table.now; asker = asker }) (Subject here.entry cases.entry others.entry count) place value locals.old.items) }
{
    match first_case(here, cases, others, count) {
        Some(met) => meets(alloc, table, locals, met, place, value),
        None => Ok(others_of(here, others, place)),
    }
}

/// The locals that were bound for a node go; what came of it stays.
pub fn cut<'t>(locals: &mut Vec<(Name, Slot)>, count: usize, flow: Flow) -> Step<'t>
    ensures { (setting : Setting) → code_of setting locals.new.items result ≡ frame_then setting (Cut count) (flow_of flow locals.old.items) }
{
    locals.truncate(count);
    Step::Finish(flow)
}
