// Records of given values, which are tested against the types of the fields one after another.

ghost use Rattle.std.specs.Prelude.{◌≡◌, IfOk, Some, map};
ghost use Rattle.abstract_syntax.specs.Classes.{SpecTree};
ghost use Rattle.abstract_syntax.specs.Values.{record_of, value_trees};
ghost use Rattle.expr_tree.specs.TypeDefView.{field_view};
ghost use Rattle.type_tree.specs.TypeView.{type_view};
ghost use Rattle.plans.specs.Plans.{bind};
ghost use Rattle.spec_table.specs.Tables.{table_spec};
ghost use Rattle.node_meaning.specs.Envs.{Locals};
ghost use Rattle.node_meaning.specs.Fitting.{typed};
ghost use Rattle.node_meaning.specs.Needs.{Asker, Setting};
ghost use Rattle.node_meaning.specs.Records.{record_value, record_with};
ghost use Rattle.node_meaning.specs.Tasks.{with_value};
ghost use Rattle.vdm_kinds.specs.declared.place.Place.{Place as PlaceOf};
ghost use Rattle.eval_data.specs.Parts.{nest_of};
ghost use Rattle.eval_data.specs.Steps.{code_of, fields_left};
ghost use Rattle.fit_steps.specs.Tests.{tested_code, under};
ghost use Rattle.record_steps.specs.Fillings.{filled_code, NextField};

use eval_data::{Filling, Nest, Step};
use expr_tree::{Field, TypeExpr};
use fit_steps::{Tested, all_shared, fitted};
use spec_table::ClassTable;
use std::alloc::Global;
use value_results::sized;
use value_steps::outcome_step;
use vdm_kinds::{Name, OutOfMemory, Place, RunFault};
use vdm_values::{Node, Slot, Value};

/// What comes next of the fields of a record and their values.
#[derive(Drop)]
pub(crate) enum Next<'t> {
    /// The value of a field of this type.
    Field(&'t TypeExpr, Value),
    /// None is left.
    Over,
    /// There are not as many values as fields.
    Wrong,
}

/// How far the tests of the values of fields came.
#[derive(Drop)]
pub(crate) enum Filled<'t> {
    /// The next field is to be tested.
    Fits(Filling<'t>),
    /// This is done.
    Stops(Step<'t>),
}

/// The record of the type of a class and a name with these fields, whose values are tested first.
pub(crate) fn record_with<'t>(
    alloc: Global,
    table: &'t ClassTable,
    locals: &mut Vec<(Name, Slot)>,
    nest: Nest,
    class: Name,
    name: Name,
    place: Place,
    fields: &'t [Field],
    values: Vec<Value>,
) -> Result<Step<'t>, OutOfMemory>
    ensures { IfOk result (λ s. (asker : Asker) → code_of (under (table_spec table.entry.now) asker) locals.new.items s ≡ record_with (table_spec table.entry.now) (nest_of nest) class name place (Some (map field_view fields.entry.now)) values.items locals.old.items) }
{
    let values = all_shared(alloc, values)?.into_vec();
    let filling = Filling {
        class,
        name,
        nest,
        fields,
        values,
        tested: 0,
    };
    fields_left(alloc, table, locals, filling, place)
}

/// The values of the fields that are left are tested, and then the record is made.
fn fields_left<'t>(
    alloc: Global,
    table: &'t ClassTable,
    locals: &mut Vec<(Name, Slot)>,
    filling: Filling<'t>,
    place: Place,
) -> Result<Step<'t>, OutOfMemory>
    ensures { IfOk result (λ s. (asker : Asker) → code_of (under (table_spec table.entry.now) asker) locals.new.items s ≡ fields_left (table_spec table.entry.now) filling.entry place locals.old.items) }
{
    let mut filling = filling;
    for _turn in 0..u64::MAX {
        filling = match next_filled(alloc, table, locals, filling, place)? {
            Filled::Fits(next) => next,
            Filled::Stops(step) => return Ok(step),
        };
    }
    Err(OutOfMemory)
}

/// A value fits the type of its field: the others are tested, and then the record is made.
pub fn field_fits<'t>(
    alloc: Global,
    table: &'t ClassTable,
    locals: &mut Vec<(Name, Slot)>,
    filling: Box<Filling<'t>>,
    place: Place,
) -> Result<Step<'t>, OutOfMemory>
    ensures { IfOk result (λ s. (asker : Asker) → code_of (under (table_spec table.entry.now) asker) locals.new.items s ≡ fields_left (table_spec table.entry.now) filling.entry.value place locals.old.items) }
{
    fields_left(alloc, table, locals, Box::into_inner(filling), place)
}

/// The value of the next field is tested; where none is left the record is made.
fn next_filled<'t>(
    alloc: Global,
    table: &'t ClassTable,
    locals: &mut Vec<(Name, Slot)>,
    filling: Filling<'t>,
    place: Place,
) -> Result<Filled<'t>, OutOfMemory>
    ensures { IfOk result (λ f. (asker : Asker) → filled_code (under (table_spec table.entry.now) asker) place locals.new.items f ≡ fields_left (table_spec table.entry.now) filling.entry place locals.old.items) }
{
    let mut filling = filling;
    match next_field(alloc, &mut filling)? {
        Next::Over => Ok(Filled::Stops(record_value(filling, place)?)),
        Next::Wrong => Ok(Filled::Stops(Step::Fail(RunFault::TypeFault, place))),
        Next::Field(declared, value) => {
            field_filled(alloc, table, locals, filling, place, declared, value)
        }
    }
}

/// The value of a field is tested before those that are left.
fn field_filled<'t>(
    alloc: Global,
    table: &'t ClassTable,
    locals: &mut Vec<(Name, Slot)>,
    filling: Filling<'t>,
    place: Place,
    declared: &'t TypeExpr,
    value: Value,
) -> Result<Filled<'t>, OutOfMemory>
    ensures { IfOk result (λ f. (asker : Asker) → filled_code (under (table_spec table.entry.now) asker) place locals.new.items f ≡ typed (table_spec table.entry.now) (nest_of filling.entry.nest) (Some filling.entry.class) (type_view declared.entry.now) place (λ v. fields_left (table_spec table.entry.now) filling.entry place) value locals.old.items) }
{
    let scope = Some(filling.class);
    let tested = fitted(
        alloc,
        table,
        locals,
        filling.nest,
        scope,
        declared,
        place,
        value,
    )?;
    behind_field(alloc, filling, place, tested)
}

/// What is done behind the test of a field.
fn behind_field<'t>(
    alloc: Global,
    filling: Filling<'t>,
    place: Place,
    tested: Tested<'t>,
) -> Result<Filled<'t>, OutOfMemory>
    ensures { IfOk result (λ f. (setting : Setting) (locals : Locals) → filled_code setting place locals f ≡ bind (tested_code setting place locals tested.entry) (with_value place (λ v. fields_left setting.spec filling.entry place))) }
{
    match tested {
        Tested::Gives(_value) => Ok(Filled::Fits(filling)),
        Tested::Fails(fault) => Ok(Filled::Stops(Step::Fail(fault, place))),
        Tested::Asks(here, tree, inner) => {
            let step = Step::field_test(alloc, here, tree, inner, filling, place)?;
            Ok(Filled::Stops(step))
        }
    }
}

/// The next field, which is then one of those that are tested.
fn next_field<'t>(alloc: Global, filling: &mut Filling<'t>) -> Result<Next<'t>, OutOfMemory>
    ensures { IfOk result (λ next. NextField next filling.old filling.new) }
{
    let value = filling.values.as_slice().get(filling.tested);
    let Some((field, fields)) = filling.fields.split_first() else {
        match value {
            None => return Ok(Next::Over),
            Some(_) => return Ok(Next::Wrong),
        }
    };
    let Some(value) = value else {
        return Ok(Next::Wrong);
    };
    let value = value.copy(alloc)?;
    filling.fields = fields;
    filling.tested = filling.tested.checked_add(1).ok_or(OutOfMemory)?;
    Ok(Next::Field(&field.declared, value))
}

/// The record of the values, or the fault of one that is too large.
fn record_value<'t>(filling: Filling<'t>, place: Place) -> Result<Step<'t>, OutOfMemory>
    ensures { IfOk result (λ s. (setting : Setting) (locals : Locals) → code_of setting locals s ≡ record_value filling.entry.class filling.entry.name place filling.entry.values.items locals) }
{
    let class = filling.class;
    let name = filling.name;
    let record = record_of(class, name, filling.into_values());
    outcome_step(sized(record), place)
}

fn record_of(class: Name, name: Name, fields: Vec<Value>) -> Value
    ensures { result ≡ record_of class name (value_trees fields.items) }
{
    Value::new(Node::Rec {
        class,
        name,
        fields,
    })
}
