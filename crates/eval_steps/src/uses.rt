// What is done with values.

ghost use Rattle.std.specs.Prelude.{◌≡◌, IfOk};
ghost use Rattle.node_meaning.specs.Matching.{on_truth as on_truth_plan};
ghost use Rattle.node_meaning.specs.Needs.{Asker};
ghost use Rattle.eval_data.specs.Parts.{here_of};
ghost use Rattle.eval_data.specs.Steps.{code_of, collect as collect_plan, then_of as then_plan, truth_use, use_of as use_plan};
ghost use Rattle.eval_steps.specs.Settings.{set};
ghost use Rattle.value_steps.specs.Further.{gathered_code};

use eval_data::{Collecting, Here, Step, Then, TruthUse, Use};
use fit_steps::{behind_brackets, fit_answer, told};
use function_steps::{
    applied, argument_fits, bound, post_decided, post_of, pre_decided, result_given, value_given,
};
use match_steps::{definition_fits, definition_met, met_with, subject_met};
use name_steps::{call_asked, called_selected, class_told, creation_asked, selected};
use record_steps::{field_fits, record_changed, record_made};
use search_steps::{choice_decided, elements, next_choice, searches};
use spec_table::ClassTable;
use std::alloc::Global;
use value_steps::{
    Decided, Gathered, make, on_truth, operand, operators, right_operand, with_value,
};
use vdm_kinds::{Name, OutOfMemory, Place, RunFault};
use vdm_values::{Slot, Value};

/// What is done with the value; the place is that of a fault.
pub(crate) fn use_of<'t>(
    alloc: Global,
    table: &'t ClassTable,
    locals: &mut Vec<(Name, Slot)>,
    used: Use<'t>,
    place: Place,
    value: Value,
) -> Result<Step<'t>, OutOfMemory>
    ensures { IfOk result (λ s. (asker : Asker) → code_of (set table.now asker) locals.new.items s ≡ use_plan (set table.now asker) used.entry place value locals.old.items) }
{
    match used {
        Use::Operand(operator) => operand(alloc, operator, place, value),
        Use::RightOperand(here, right, operator) => {
            Ok(right_operand(here, right, operator, place, value))
        }
        Use::Operator(operator, left) => operators(alloc, operator, place, left, value),
        Use::Collect(collecting) => collect(alloc, table, locals, collecting, value),
        Use::Truth(truth) => decide(alloc, table, locals, truth, place, value),
        Use::CallThrough(here, what, arguments, dot, wanted) => {
            let gathered = called_selected(
                alloc, table, here, what, arguments, dot, wanted, place, value,
            )?;
            behind(alloc, table, locals, gathered)
        }
        Use::Select(what) => selected(alloc, table, what, place, value),
        Use::Asked(nest, scope, wanted) => {
            fit_answer(alloc, table, locals, nest, scope, wanted, place, &value)
        }
        Use::Defined(here, declared, met) => {
            definition_met(alloc, table, locals, here, declared, met, place, value)
        }
        Use::Result(applying) => result_given(alloc, table, locals, applying, value),
        Use::ClassValue(naming) => value_given(alloc, table, locals, naming, place, value),
        Use::Subject(here, cases, others, count) => {
            subject_met(
                alloc, table, locals, here, cases, others, count, place, value,
            )
        }
        Use::Elements(sets) => elements(alloc, table, locals, sets, place, value),
        Use::ArgumentFits(passing) => argument_fits(alloc, table, locals, passing),
        Use::ResultFits(applying) => post_of(alloc, locals, applying, value),
        Use::DefinitionFits(here, met) => {
            definition_fits(alloc, table, locals, here, met, place, value)
        }
        Use::FieldFits(filling) => field_fits(alloc, table, locals, filling, place),
    }
}

/// The value stands behind those that came before it.
fn collect<'t>(
    alloc: Global,
    table: &'t ClassTable,
    locals: &mut Vec<(Name, Slot)>,
    collecting: Box<Collecting<'t>>,
    value: Value,
) -> Result<Step<'t>, OutOfMemory>
    ensures { IfOk result (λ s. (asker : Asker) → code_of (set table.now asker) locals.new.items s ≡ collect_plan (set table.now asker) collecting.entry.value value locals.old.items) }
{
    let gathered = with_value(alloc, collecting, value)?;
    behind(alloc, table, locals, gathered)
}

/// What is done with the values once all of them came.
pub(crate) fn behind<'t>(
    alloc: Global,
    table: &'t ClassTable,
    locals: &mut Vec<(Name, Slot)>,
    gathered: Gathered<'t>,
) -> Result<Step<'t>, OutOfMemory>
    ensures { IfOk result (λ s. (asker : Asker) → code_of (set table.now asker) locals.new.items s ≡ gathered_code (set table.now asker) locals.old.items gathered.entry) }
{
    match gathered {
        Gathered::Part(step) => Ok(step),
        Gathered::All(here, place, values, then) => {
            all_came(alloc, table, locals, here, place, values, then)
        }
    }
}

/// What is done with all values.
fn all_came<'t>(
    alloc: Global,
    table: &'t ClassTable,
    locals: &mut Vec<(Name, Slot)>,
    here: Here<'t>,
    place: Place,
    values: Vec<Value>,
    then: Then<'t>,
) -> Result<Step<'t>, OutOfMemory>
    ensures { IfOk result (λ s. (asker : Asker) → code_of (set table.now asker) locals.new.items s ≡ then_plan (set table.now asker) then.entry (here_of here.entry) place values.items locals.old.items) }
{
    match then {
        Then::Make(what) => make(alloc, what, place, values),
        Then::Classes(test) => Ok(class_told(table, test, values)),
        Then::Meets(value, met) => met_with(alloc, table, locals, met, place, value, values),
        Then::Searches(lists, patterns, chooser) => {
            searches(
                alloc, table, locals, here, place, lists, patterns, chooser, values,
            )
        }
        Then::NextChoice(search) => next_choice(alloc, table, locals, search, values),
        Then::Applies(op, arguments) => applied(
            alloc, table, locals, op, place, here.nest, arguments, values,
        ),
        Then::Binds(applying, arguments) => {
            bound(alloc, table, locals, applying, arguments, values)
        }
        Then::Record(name) => record_made(
            alloc, table, locals, here.nest, here.scope, name, place, values,
        ),
        Then::Changes(changes) => {
            record_changed(alloc, table, locals, here.nest, changes, place, values)
        }
        Then::Calls(number, own, op, arguments, wanted) => call_asked(
            alloc, number, own, op, arguments, wanted, place, values,
        ),
        Then::NoSuchCall => Ok(Step::Fail(RunFault::TypeFault, place)),
        Then::Creates(class, arguments) => {
            creation_asked(alloc, class, arguments, place, values)
        }
        Then::Invariant(asking, invariant, value) => behind_brackets(
            alloc, table, locals, here, place, asking, invariant, value, values,
        ),
    }
}

/// The value has to be a truth value.
fn decide<'t>(
    alloc: Global,
    table: &'t ClassTable,
    locals: &mut Vec<(Name, Slot)>,
    truth: TruthUse<'t>,
    place: Place,
    value: Value,
) -> Result<Step<'t>, OutOfMemory>
    ensures { IfOk result (λ s. (asker : Asker) → code_of (set table.now asker) locals.new.items s ≡ on_truth_plan place (truth_use (set table.now asker).spec truth.entry place) value locals.old.items) }
{
    match on_truth(truth, place, value) {
        Decided::Known(step) => Ok(step),
        Decided::Chosen(search, b) => choice_decided(alloc, table, locals, search, b),
        Decided::Pre(applying, b) => Ok(pre_decided(applying, b)),
        Decided::Post(applying, result, b) => Ok(post_decided(locals, applying, result, b)),
        Decided::Invariant(asking, b) => told(alloc, table, locals, asking, b),
    }
}
