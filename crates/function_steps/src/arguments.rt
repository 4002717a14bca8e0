// The arguments of a function, which are tested one after another.

ghost use Rattle.std.specs.Prelude.{◌≡◌, IfOk, MatchOption, Some};
ghost use Rattle.abstract_syntax.specs.Classes.{SpecTree};
ghost use Rattle.type_tree.specs.TypeView.{type_view};
ghost use Rattle.vdm_tree.specs.ClassView.{function_view};
ghost use Rattle.node_meaning.specs.Envs.{Locals};
ghost use Rattle.node_meaning.specs.Fitting.{typed};
ghost use Rattle.node_meaning.specs.Functions.{begun};
ghost use Rattle.node_meaning.specs.Needs.{Asker, Setting};
ghost use Rattle.node_meaning.specs.Tasks.{with_value};
ghost use Rattle.plans.specs.Plans.{bind};
ghost use Rattle.eval_data.specs.Parts.{nest_of};
ghost use Rattle.eval_data.specs.Steps.{arguments_left, code_of};
ghost use Rattle.spec_table.specs.Tables.{table_spec};
ghost use Rattle.fit_steps.specs.Tests.{tested_code, under};
ghost use Rattle.function_steps.specs.Passings.{passed_code};

use crate::parameters::begun;
use eval_data::{Passing, Step};
use fit_steps::{Tested, fitted};
use spec_table::ClassTable;
use std::alloc::Global;
use type_tree::TypeExpr;
use vdm_kinds::{Name, OutOfMemory, Place};
use vdm_values::{Slot, Value};

/// An argument: the type of its parameter, its place and its value.
#[derive(Drop)]
struct Argument<'t> {
    declared: &'t TypeExpr,
    place: Place,
    value: Value,
}

/// How far the tests of arguments came.
#[derive(Drop)]
pub(crate) enum Passed<'t> {
    /// The next argument is to be tested.
    Fits(Passing<'t>),
    /// This is done.
    Stops(Step<'t>),
}

/// The arguments that are left are tested, and then the function begins.
pub(crate) fn arguments_left<'t>(
    alloc: Global,
    table: &'t ClassTable,
    locals: &mut Vec<(Name, Slot)>,
    passing: Passing<'t>,
) -> Result<Step<'t>, OutOfMemory>
    ensures { IfOk result (λ s. (asker : Asker) → code_of (under (table_spec table.entry.now) asker) locals.new.items s ≡ arguments_left (table_spec table.entry.now) passing.entry locals.old.items) }
{
    let mut passing = passing;
    for _turn in 0..u64::MAX {
        passing = match next_passed(alloc, table, locals, passing)? {
            Passed::Fits(next) => next,
            Passed::Stops(step) => return Ok(step),
        };
    }
    Err(OutOfMemory)
}

/// An argument fits the type of its parameter: the others are tested, and then the function begins.
pub fn argument_fits<'t>(
    alloc: Global,
    table: &'t ClassTable,
    locals: &mut Vec<(Name, Slot)>,
    passing: Box<Passing<'t>>,
) -> Result<Step<'t>, OutOfMemory>
    ensures { IfOk result (λ s. (asker : Asker) → code_of (under (table_spec table.entry.now) asker) locals.new.items s ≡ arguments_left (table_spec table.entry.now) passing.entry.value locals.old.items) }
{
    arguments_left(alloc, table, locals, Box::into_inner(passing))
}

/// The next argument is tested; where none is left the function begins.
fn next_passed<'t>(
    alloc: Global,
    table: &'t ClassTable,
    locals: &mut Vec<(Name, Slot)>,
    passing: Passing<'t>,
) -> Result<Passed<'t>, OutOfMemory>
    ensures { IfOk result (λ p. (asker : Asker) → passed_code (under (table_spec table.entry.now) asker) locals.new.items p ≡ arguments_left (table_spec table.entry.now) passing.entry locals.old.items) }
{
    let mut passing = passing;
    match next_argument(alloc, &mut passing)? {
        None => Ok(Passed::Stops(begun(alloc, table, locals, passing)?)),
        Some(argument) => argument_passed(alloc, table, locals, passing, argument),
    }
}

/// An argument is tested before those that are left.
fn argument_passed<'t>(
    alloc: Global,
    table: &'t ClassTable,
    locals: &mut Vec<(Name, Slot)>,
    passing: Passing<'t>,
    argument: Argument<'t>,
) -> Result<Passed<'t>, OutOfMemory>
    ensures { IfOk result (λ p. (asker : Asker) → passed_code (under (table_spec table.entry.now) asker) locals.new.items p ≡ typed (table_spec table.entry.now) (nest_of passing.entry.nest) (Some passing.entry.op.class) (type_view argument.entry.declared.now) argument.entry.place (λ v. arguments_left (table_spec table.entry.now) passing.entry) argument.entry.value locals.old.items) }
{
    let Argument {
        declared,
        place,
        value,
    } = argument;
    let scope = Some(passing.op.class);
    let tested = fitted(
        alloc,
        table,
        locals,
        passing.nest,
        scope,
        declared,
        place,
        value,
    )?;
    behind_argument(alloc, passing, place, tested)
}

/// What is done behind the test of an argument, which stands at the place.
fn behind_argument<'t>(
    alloc: Global,
    passing: Passing<'t>,
    place: Place,
    tested: Tested<'t>,
) -> Result<Passed<'t>, OutOfMemory>
    ensures { IfOk result (λ p. (setting : Setting) (locals : Locals) → passed_code setting locals p ≡ bind (tested_code setting place locals tested.entry) (with_value place (λ v. arguments_left setting.spec passing.entry))) }
{
    match tested {
        Tested::Gives(_value) => Ok(Passed::Fits(passing)),
        Tested::Fails(fault) => Ok(Passed::Stops(Step::Fail(fault, place))),
        Tested::Asks(here, tree, inner) => {
            let step = Step::argument_test(alloc, here, tree, inner, passing, place)?;
            Ok(Passed::Stops(step))
        }
    }
}

/// The next argument, which is then one of those that are tested; none where none is left.
fn next_argument<'t>(
    alloc: Global,
    passing: &mut Passing<'t>,
) -> Result<Option<Argument<'t>>, OutOfMemory>
    ensures { IfOk result (λ found. MatchOption found ((spec : SpecTree) (locals : Locals) → arguments_left spec passing.old locals ≡ begun spec passing.new.op.class (function_view passing.new.function.now) passing.new.place (nest_of passing.new.nest) passing.new.values locals) (λ a. (spec : SpecTree) (locals : Locals) → arguments_left spec passing.old locals ≡ typed spec (nest_of passing.new.nest) (Some passing.new.op.class) (type_view a.declared.now) a.place (λ v. arguments_left spec passing.new) a.value locals)) }
{
    let Some((declared, types)) = passing.types.split_first() else {
        return Ok(None);
    };
    let Some(tree) = passing.arguments.get(passing.tested) else {
        return Ok(None);
    };
    let Some(value) = passing.values.as_slice().get(passing.tested) else {
        return Ok(None);
    };
    let value = value.copy(alloc)?;
    passing.types = types;
    passing.tested = passing.tested.checked_add(1).ok_or(OutOfMemory)?;
    Ok(Some(Argument {
        declared,
        place: tree.place(),
        value,
    }))
}
