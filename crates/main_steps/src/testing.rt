// The slots of a class object, which are tested against the types of their variables.

ghost use Rattle.std.specs.Prelude.{◌≡◌, ◌≤◌, ◌<◌, ◌+◌, ◌-◌, [], Some, IfOk, option_map, slice_get};
ghost use Rattle.std.specs.Borrow.{Bor};
ghost use Rattle.vdm_values.specs.declared.slot.Slot.{Slot as SlotOf};
ghost use Rattle.abstract_syntax.specs.Classes.{SpecTree};
ghost use Rattle.type_tree.specs.TypeView.{type_view};
ghost use Rattle.vdm_tree.specs.ClassView.{variable_view};
ghost use Rattle.plans.specs.Plans.{bind};
ghost use Rattle.node_meaning.specs.Envs.{Locals, no_nest};
ghost use Rattle.node_meaning.specs.Fitting.{fitted as fitted_plan};
ghost use Rattle.node_meaning.specs.Names.{variable_definition};
ghost use Rattle.node_meaning.specs.Tasks.{Code};
ghost use Rattle.stmt_meaning.specs.Questions.{of_thread};
ghost use Rattle.vdm_meaning.specs.Main.{came, static_tested, static_typed};
ghost use Rattle.spec_table.specs.Tables.{table_spec};
ghost use Rattle.eval_data.specs.Parts.{flow_of};
ghost use Rattle.fit_steps.specs.Tests.{tested_code};
ghost use Rattle.step_data.specs.Actions.{action_code, busy, height, most};
ghost use Rattle.step_data.specs.Callings.{statics_tested};
ghost use Rattle.main_steps.specs.Trials.{tried_code};

use crate::statics::{cleared, place_of};
use eval_data::{Flow, Frame, Here, Nest};
use fit_steps::{Tested, fitted};
use spec_table::ClassTable;
use std::alloc::Global;
use step_data::{Action, Asking, ClassMaking, Waiting};
use type_tree::TypeExpr;
use vdm_kinds::{Name, OutOfMemory, Place, RunFault, VarRef};
use vdm_tree::{Expr, VarDef};
use vdm_values::{Slot, Value};

/// How far the test of a slot comes by itself.
#[derive(Drop)]
enum Tried<'t> {
    /// It fits, or has no initialiser.
    Passes,
    /// It does not; its initialiser stands at the place.
    Fails(RunFault, Place),
    /// An invariant is evaluated: a part of it, what is done with what comes of that, and where the initialiser stands.
    Asks(Here<'t>, &'t Expr, Frame<'t>, Place),
}

/// The slots behind the first so many are tested, and then the class object is asked for.
pub(crate) fn test_statics<'t>(
    alloc: Global,
    table: &'t ClassTable,
    locals: &mut Vec<(Name, Slot)>,
    making: Box<ClassMaking<'t>>,
    tested: usize,
) -> Result<Action<'t>, OutOfMemory>
    ensures same { IfOk result (λ a. action_code (table_spec table.now) locals.new.items a ≡ statics_tested (table_spec table.now) making.entry.value tested) }
    ensures busy { IfOk result (λ a. busy a ≤ 1) }
    ensures falls { IfOk result (λ a. height a ≤ 2 + (most - making.entry.value.object)) }
{
    for index in tested..making.slots.len() {
        match next_tried(alloc, table, locals, &making, index)? {
            Tried::Passes => {}
            Tried::Fails(fault, place) => return Ok(Action::Fail(fault, place)),
            Tried::Asks(here, tree, inner, place) => {
                let waiting = Waiting::StaticFits(making, index + 1, place);
                return Action::fit(alloc, here, tree, inner, waiting);
            }
        }
    }
    Ok(Action::Ask(Asking::Class(making)))
}

/// The test of the slot of this number.
fn next_tried<'t>(
    alloc: Global,
    table: &'t ClassTable,
    locals: &mut Vec<(Name, Slot)>,
    making: &ClassMaking<'t>,
    index: usize,
) -> Result<Tried<'t>, OutOfMemory>
    ensures { IfOk result (λ t. tried_code (table_spec table.now) locals.new.items (statics_tested (table_spec table.now) making.now (index + 1)) t ≡ statics_tested (table_spec table.now) making.now index) }
{
    match variable_at(making, index) {
        None => Ok(Tried::Passes),
        Some(variable) => match slot_at(making, index) {
            None => Ok(Tried::Passes),
            Some(slot) => slot_tried(alloc, table, locals, variable, slot),
        },
    }
}

fn variable_at(making: &ClassMaking<'_>, index: usize) -> Option<VarRef>
    ensures { result ≡ slice_get making.now.variables.now index }
{
    making.variables.get(index).copied()
}

fn slot_at<'m>(making: &'m ClassMaking<'_>, index: usize) -> Option<&'m Slot>
    ensures { option_map (λ (s : Bor SlotOf). s.now) result ≡ slice_get making.now.slots.items index }
{
    making.slots.as_slice().get(index)
}

/// The slot of a variable is tested against the type of its definition.
fn slot_tried<'t>(
    alloc: Global,
    table: &'t ClassTable,
    locals: &mut Vec<(Name, Slot)>,
    variable: VarRef,
    slot: &Slot,
) -> Result<Tried<'t>, OutOfMemory>
    ensures { IfOk result (λ t. (further : Code) → tried_code (table_spec table.now) locals.new.items further t ≡ static_typed (table_spec table.now) variable.class (variable_definition (table_spec table.now) variable) slot.now further) }
{
    match table.variable(&variable) {
        Some(definition) => {
            let tried = held_tried(alloc, table, locals, variable.class, definition, slot)?;
            Ok(tried)
        }
        None => Ok(Tried::Passes),
    }
}

/// What an initialiser gave is tested; where there is none, nothing is.
fn held_tried<'t>(
    alloc: Global,
    table: &'t ClassTable,
    locals: &mut Vec<(Name, Slot)>,
    class: Name,
    definition: &'t VarDef,
    slot: &Slot,
) -> Result<Tried<'t>, OutOfMemory>
    ensures { IfOk result (λ t. (further : Code) → tried_code (table_spec table.now) locals.new.items further t ≡ static_tested (table_spec table.now) class (variable_view definition.now).declared (variable_view definition.now).initial slot.now further) }
{
    match (&definition.initial, slot) {
        (Some(initial), Slot::Held(value)) => {
            let place = place_of(initial);
            let declared = &definition.declared;
            let tried = value_tried(alloc, table, locals, class, declared, place, value)?;
            Ok(tried)
        }
        _ => Ok(Tried::Passes),
    }
}

/// A value is tested at the place against the type of a variable of the class, among no locals. No initialiser stands inside a test of
/// a type.
fn value_tried<'t>(
    alloc: Global,
    table: &'t ClassTable,
    locals: &mut Vec<(Name, Slot)>,
    class: Name,
    declared: &'t TypeExpr,
    place: Place,
    value: &Value,
) -> Result<Tried<'t>, OutOfMemory>
    ensures { IfOk result (λ t. (further : Code) → tried_code (table_spec table.now) locals.new.items further t ≡ bind (fitted_plan (table_spec table.now) no_nest (Some class) (type_view declared.now) place value.now []) (came place (λ v. further))) }
{
    cleared(alloc, locals);
    let nest = Nest::none();
    let value = value.copy(alloc)?;
    let tested = fitted(
        alloc,
        table,
        locals,
        nest,
        Some(class),
        declared,
        place,
        value,
    )?;
    Ok(without_value(tested, place))
}

/// No more of a value that fits is wanted.
fn without_value<'t>(tested: Tested<'t>, place: Place) -> Tried<'t>
    ensures { (spec : SpecTree) (locals : Locals) (further : Code) → tried_code spec locals further result ≡ bind (tested_code (of_thread spec) place locals tested.entry) (came place (λ v. further)) }
{
    match tested {
        Tested::Gives(_value) => Tried::Passes,
        Tested::Fails(fault) => Tried::Fails(fault, place),
        Tested::Asks(here, tree, inner) => Tried::Asks(here, tree, inner, place),
    }
}

/// The value fits the type of its static variable, with its initialiser at the place, and the slots behind the first so many follow. An
/// exit leaves main.
pub fn static_fits<'t>(
    alloc: Global,
    table: &'t ClassTable,
    locals: &mut Vec<(Name, Slot)>,
    making: Box<ClassMaking<'t>>,
    tested: usize,
    place: Place,
    flow: Flow,
) -> Result<Action<'t>, OutOfMemory>
    ensures same { IfOk result (λ a. action_code (table_spec table.now) locals.new.items a ≡ came place (λ v. statics_tested (table_spec table.now) making.entry.value tested) (flow_of flow locals.old.items)) }
    ensures busy { IfOk result (λ a. busy a ≤ 1) }
    ensures falls { IfOk result (λ a. height a < 10 + most) }
{
    match flow {
        Flow::Gave(Slot::Held(_value)) => test_statics(alloc, table, locals, making, tested),
        Flow::Gave(Slot::Unset) | Flow::Next => Ok(Action::Fail(RunFault::Undefined, place)),
        Flow::Returned(_slot) => Ok(Action::Fail(RunFault::Undefined, place)),
        Flow::Exited(value, from) => Ok(Action::Uncaught(value, from)),
    }
}
