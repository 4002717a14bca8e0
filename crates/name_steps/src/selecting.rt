// What is selected of values.

ghost use Rattle.std.specs.Prelude.{◌≡◌, IfOk};
ghost use Rattle.abstract_syntax.specs.Values.{value_trees};
ghost use Rattle.spec_table.specs.Tables.{table_spec};
ghost use Rattle.node_meaning.specs.Envs.{Locals};
ghost use Rattle.node_meaning.specs.Expressions.{read_member, selected, selected_of_class};
ghost use Rattle.node_meaning.specs.Names.{variable_in};
ghost use Rattle.node_meaning.specs.Needs.{Asker, Setting};
ghost use Rattle.node_meaning.specs.Records.{field_value};
ghost use Rattle.node_meaning.specs.Tasks.{value_or_fault};
ghost use Rattle.eval_data.specs.Steps.{code_of, read_selected};
ghost use Rattle.name_steps.specs.Settings.{set};

use crate::homes::variable_home;
use crate::look_ups::{class_for, variable_in};
use crate::reading::read_on;
use eval_data::{Selected, Step};
use record_steps::field_value;
use spec_table::ClassTable;
use std::alloc::Global;
use value_steps::outcome_step;
use vdm_kinds::{Name, OutOfMemory, Place, RunFault, VarRef};
use vdm_values::{Node, Value};

/// What is selected of a value at the place.
pub fn selected<'t>(
    alloc: Global,
    table: &ClassTable,
    what: Selected,
    place: Place,
    value: Value,
) -> Result<Step<'t>, OutOfMemory>
    ensures { IfOk result (λ s. (asker : Asker) (locals : Locals) → code_of (set table.now asker) locals s ≡ read_selected (set table.now asker) place what value locals) }
{
    match what {
        Selected::Member(name) => member(alloc, table, name, place, value),
        Selected::OfClass(class, name) => member_of_class(table, class, name, place, value),
    }
}

/// The member of a value: a field of a record, or a variable of an object.
fn member<'t>(
    alloc: Global,
    table: &ClassTable,
    name: Name,
    place: Place,
    value: Value,
) -> Result<Step<'t>, OutOfMemory>
    ensures { IfOk result (λ s. (asker : Asker) (locals : Locals) → code_of (set table.now asker) locals s ≡ selected (set table.now asker) place name value locals) }
{
    match value.node() {
        Node::Rec {
            class,
            name: type_name,
            fields,
        } => field_of(alloc, table, name, *class, *type_name, fields, place),
        Node::Object { number, class } => { variable_of(table, *number, Some(*class), name, place) }
        _ => Ok(Step::Fail(RunFault::TypeFault, place)),
    }
}

/// What a name means in the class of another name, as a variable of an object.
fn member_of_class<'t>(
    table: &ClassTable,
    class: Name,
    name: Name,
    place: Place,
    value: Value,
) -> Result<Step<'t>, OutOfMemory>
    ensures { IfOk result (λ s. (asker : Asker) (locals : Locals) → code_of (set table.now asker) locals s ≡ selected_of_class (set table.now asker) place class name value locals) }
{
    match value.node() {
        Node::Object { number, class: own } => {
            let class = class_for(table, *own, class);
            variable_of(table, *number, class, name, place)
        }
        _ => Ok(Step::Fail(RunFault::TypeFault, place)),
    }
}

fn field_of<'t>(
    alloc: Global,
    table: &ClassTable,
    name: Name,
    class: Name,
    type_name: Name,
    values: &Vec<Value>,
    place: Place,
) -> Result<Step<'t>, OutOfMemory>
    ensures { IfOk result (λ s. (setting : Setting) (locals : Locals) → code_of setting locals s ≡ value_or_fault place (field_value (table_spec table.now) name class type_name (value_trees values.now.items)) locals) }
{
    outcome_step(
        field_value(alloc, table, name, class, type_name, values.as_slice()),
        place,
    )
}

/// The variable that a name means in a class, where it stands for the object of a number.
fn variable_of<'t>(
    table: &ClassTable,
    object: u32,
    class: Option<Name>,
    name: Name,
    place: Place,
) -> Result<Step<'t>, OutOfMemory>
    ensures { IfOk result (λ s. (asker : Asker) (locals : Locals) → code_of (set table.now asker) locals s ≡ read_member (set table.now asker) place object (variable_in (table_spec table.now) class name) locals) }
{
    let variable = variable_in(table, class, name);
    read_member(table, object, variable, place)
}

/// A variable of the object of a number, which has to be one of its class.
fn read_member<'t>(
    table: &ClassTable,
    object: u32,
    variable: Option<VarRef>,
    place: Place,
) -> Result<Step<'t>, OutOfMemory>
    ensures { IfOk result (λ s. (asker : Asker) (locals : Locals) → code_of (set table.now asker) locals s ≡ read_member (set table.now asker) place object variable locals) }
{
    match variable {
        Some(variable) => {
            let home = variable_home(table, &variable, Some(object))?;
            Ok(read_on(home, variable, place))
        }
        None => Ok(Step::Fail(RunFault::TypeFault, place)),
    }
}
