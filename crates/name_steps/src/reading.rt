// Names that stand alone.

ghost use Rattle.std.specs.Prelude.{◌≡◌, IfOk, Option, Some, option_map};
ghost use Rattle.abstract_syntax.specs.Values.{object as object_tree};
ghost use Rattle.vdm_kinds.specs.declared.name.Name.{Name as NameOf};
ghost use Rattle.std.specs.Borrow.{Bor};
ghost use Rattle.vdm_values.specs.declared.slot.Slot.{Slot};
ghost use Rattle.spec_table.specs.Tables.{table_spec};
ghost use Rattle.node_meaning.specs.Envs.{Locals, held_unless_static, local_named, old_name, result_name};
ghost use Rattle.node_meaning.specs.Expressions.{slot_value, held_value, read_on, slot_read, held_read, read_held, read_found, member_value, value_named, name_value, self_value};
ghost use Rattle.node_meaning.specs.Names.{variable_in};
ghost use Rattle.node_meaning.specs.Needs.{Asker, Setting};
ghost use Rattle.eval_data.specs.declared.here.Held.{Held as HeldOf};
ghost use Rattle.eval_data.specs.Parts.{held_of, here_of};
ghost use Rattle.eval_data.specs.Steps.{code_of};
ghost use Rattle.name_steps.specs.Settings.{set};

use crate::homes::{home_here, is_static_variable};
use crate::look_ups::{value_in, variable_in};
use crate::slots::{held_slot, local_slot};
use eval_data::{After, Held, Here, Need, Step};
use function_steps::{class_value, result_name};
use spec_table::ClassTable;
use std::alloc::Global;
use vdm_kinds::{Name, OutOfMemory, Place, RunFault, VarRef};
use vdm_values::{Node, Slot, Value};

/// A name that stands alone is the newest local of that name, or what it means in the class of the node.
pub fn name<'t>(
    alloc: Global,
    table: &'t ClassTable,
    locals: &mut Vec<(Name, Slot)>,
    here: Here<'t>,
    name: Name,
    place: Place,
) -> Result<Step<'t>, OutOfMemory>
    ensures { IfOk result (λ s. (asker : Asker) → code_of (set table.entry.now asker) locals.new.items s ≡ name_value (set table.entry.now asker) (here_of here.entry) place name (local_named locals.old.items name) locals.old.items) }
{
    match local_slot(locals.as_slice(), name) {
        Some(slot) => slot_value(alloc, slot, place),
        None => value_named(alloc, table, locals, here, here.scope, name, place),
    }
}

/// What a name means in the class of another name.
pub fn qualified<'t>(
    alloc: Global,
    table: &'t ClassTable,
    locals: &mut Vec<(Name, Slot)>,
    here: Here<'t>,
    class: Name,
    name: Name,
    place: Place,
) -> Result<Step<'t>, OutOfMemory>
    ensures { IfOk result (λ s. (asker : Asker) → code_of (set table.entry.now asker) locals.new.items s ≡ value_named (set table.entry.now asker) (here_of here.entry) place (Some class) name locals.old.items) }
{
    value_named(alloc, table, locals, here, Some(class), name, place)
}

/// The result of a function or an operation, which stands among the locals of its `post`.
pub fn result_value<'t>(
    alloc: Global,
    locals: &[(Name, Slot)],
    place: Place,
) -> Result<Step<'t>, OutOfMemory>
    ensures { IfOk result (λ s. (setting : Setting) (any : Locals) → code_of setting any s ≡ held_value place (local_named locals.now result_name) any) }
{
    held_value(alloc, local_slot(locals, result_name()), place)
}

/// What a variable had before the body of an operation, which stands among the locals of its `post`.
pub fn old_value<'t>(
    alloc: Global,
    locals: &[(Name, Slot)],
    name: Name,
    place: Place,
) -> Result<Step<'t>, OutOfMemory>
    ensures { IfOk result (λ s. (setting : Setting) (any : Locals) → code_of setting any s ≡ held_value place (local_named locals.now (old_name name)) any) }
{
    let name = old_name(name)?;
    held_value(alloc, local_slot(locals, name), place)
}

/// The name under which `x~` stands among the locals. A text with so many names takes more memory than there is.
pub fn old_name(name: Name) -> Result<Name, OutOfMemory>
    ensures { IfOk result (λ old. old ≡ old_name name) }
{
    match name.0.checked_add(2147483648) {
        Some(number) => Ok(Name(number)),
        None => Err(OutOfMemory),
    }
}

/// The object on which the node stands.
pub fn self_value<'t>(here: Here<'t>, place: Place) -> Step<'t>
    ensures { (setting : Setting) (locals : Locals) → code_of setting locals result ≡ self_value place (here_of here.entry).me (here_of here.entry).own locals }
{
    match (here.me, here.own) {
        (Some(number), Some(class)) => Step::value(object_value(number, class)),
        _ => Step::Fail(RunFault::Undefined, place),
    }
}

fn object_value(number: u32, class: Name) -> Value
    ensures { result ≡ object_tree number class }
{
    Value::new(Node::Object { number, class })
}

/// What a name means in a class: a class value, or a variable.
fn value_named<'t>(
    alloc: Global,
    table: &'t ClassTable,
    locals: &mut Vec<(Name, Slot)>,
    here: Here<'t>,
    scope: Option<Name>,
    name: Name,
    place: Place,
) -> Result<Step<'t>, OutOfMemory>
    ensures { IfOk result (λ s. (asker : Asker) → code_of (set table.entry.now asker) locals.new.items s ≡ value_named (set table.entry.now asker) (here_of here.entry) place scope name locals.old.items) }
{
    let value = value_in(table, scope, name);
    let variable = variable_in(table, scope, name);
    member_value(alloc, table, locals, here, value, variable, place)
}

/// A class value is evaluated, a variable is read.
fn member_value<'t>(
    alloc: Global,
    table: &'t ClassTable,
    locals: &mut Vec<(Name, Slot)>,
    here: Here<'t>,
    value: Option<VarRef>,
    variable: Option<VarRef>,
    place: Place,
) -> Result<Step<'t>, OutOfMemory>
    ensures { IfOk result (λ s. (asker : Asker) (scope : Option NameOf) (name : NameOf) → variable ≡ variable_in (table_spec table.entry.now) scope name → code_of (set table.entry.now asker) locals.new.items s ≡ member_value (set table.entry.now asker) (here_of here.entry) place scope name value locals.old.items) }
{
    match value {
        Some(reference) => class_value(alloc, table, locals, reference, place, here.nest),
        None => read_found(alloc, table, here, variable, place),
    }
}

/// A variable, where one was found.
fn read_found<'t>(
    alloc: Global,
    table: &ClassTable,
    here: Here<'t>,
    variable: Option<VarRef>,
    place: Place,
) -> Result<Step<'t>, OutOfMemory>
    ensures { IfOk result (λ s. (asker : Asker) (locals : Locals) → code_of (set table.now asker) locals s ≡ read_found (set table.now asker) (here_of here.entry) place variable locals) }
{
    match variable {
        Some(variable) => read_at_home(alloc, table, here, variable, place),
        None => Ok(Step::Fail(RunFault::Undefined, place)),
    }
}

/// A variable that is named is taken from what is held, or read where it stands.
fn read_at_home<'t>(
    alloc: Global,
    table: &ClassTable,
    here: Here<'t>,
    variable: VarRef,
    place: Place,
) -> Result<Step<'t>, OutOfMemory>
    ensures { IfOk result (λ s. (asker : Asker) (locals : Locals) → code_of (set table.now asker) locals s ≡ read_found (set table.now asker) (here_of here.entry) place (Some variable) locals) }
{
    let is_static = is_static_variable(table, &variable);
    let object = home_here(table, here, variable.class, is_static)?;
    let held = held_unless_static(is_static, here.held);
    read_held(alloc, object, held, variable, place)
}

/// What is held where a variable is named that is static or not: nothing static is held.
fn held_unless_static(is_static: bool, held: Option<&Held>) -> Option<&Held>
    ensures { option_map (λ (h : Bor HeldOf). held_of h.now) result ≡ held_unless_static is_static (option_map (λ (h : Bor HeldOf). held_of h.now) held.entry) }
{
    if is_static { None } else { held }
}

/// A variable is taken from what is held, or else read.
fn read_held<'t>(
    alloc: Global,
    object: Option<u32>,
    held: Option<&Held>,
    variable: VarRef,
    place: Place,
) -> Result<Step<'t>, OutOfMemory>
    ensures { IfOk result (λ s. (setting : Setting) (locals : Locals) → code_of setting locals s ≡ read_held setting place variable object (option_map (λ (h : Bor HeldOf). held_of h.now) held.entry) locals) }
{
    match held {
        Some(held) => held_read(alloc, held_slot(held, variable), variable, place),
        None => Ok(read_on(object, variable, place)),
    }
}

/// What is held; what is unset is asked for, as of no object in particular.
fn held_read<'t>(
    alloc: Global,
    slot: Option<&Slot>,
    variable: VarRef,
    place: Place,
) -> Result<Step<'t>, OutOfMemory>
    ensures { IfOk result (λ s. (setting : Setting) (locals : Locals) → code_of setting locals s ≡ held_read setting place variable (option_map (λ (s : Bor Slot). s.now) slot.entry) locals) }
{
    match slot {
        Some(slot) => slot_read(alloc, slot, variable, place),
        None => Ok(read_on(Some(0), variable, place)),
    }
}

fn slot_read<'t>(
    alloc: Global,
    slot: &Slot,
    variable: VarRef,
    place: Place,
) -> Result<Step<'t>, OutOfMemory>
    ensures { IfOk result (λ s. (setting : Setting) (locals : Locals) → code_of setting locals s ≡ slot_read setting place variable slot.now locals) }
{
    match slot {
        Slot::Held(value) => Ok(Step::value(value.copy(alloc)?)),
        Slot::Unset => Ok(read_on(Some(0), variable, place)),
    }
}

/// A variable of an object is read.
pub(crate) fn read_on<'t>(object: Option<u32>, variable: VarRef, place: Place) -> Step<'t>
    ensures { (setting : Setting) (locals : Locals) → code_of setting locals result ≡ read_on setting place variable object locals }
{
    match object {
        Some(object) => Step::Need(Need::Read(object, variable), place, After::Value),
        None => Step::Fail(RunFault::Undefined, place),
    }
}

fn held_value<'t>(alloc: Global, slot: Option<&Slot>, place: Place) -> Result<Step<'t>, OutOfMemory>
    ensures { IfOk result (λ s. (setting : Setting) (locals : Locals) → code_of setting locals s ≡ held_value place (option_map (λ (s : Bor Slot). s.now) slot.entry) locals) }
{
    match slot {
        Some(slot) => slot_value(alloc, slot, place),
        None => Ok(Step::Fail(RunFault::Undefined, place)),
    }
}

/// What a local has; an unset one has no value.
fn slot_value<'t>(alloc: Global, slot: &Slot, place: Place) -> Result<Step<'t>, OutOfMemory>
    ensures { IfOk result (λ s. (setting : Setting) (locals : Locals) → code_of setting locals s ≡ slot_value place slot.now locals) }
{
    match slot {
        Slot::Held(value) => Ok(Step::value(value.copy(alloc)?)),
        Slot::Unset => Ok(Step::Fail(RunFault::Undefined, place)),
    }
}
