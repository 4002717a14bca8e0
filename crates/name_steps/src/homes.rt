// The objects on which variables and operations stand.

ghost use Rattle.std.specs.Prelude.{◌≡◌, IfOk};
ghost use Rattle.class_meaning.specs.Classes.{class_number};
ghost use Rattle.spec_table.specs.Tables.{table_spec};
ghost use Rattle.node_meaning.specs.Envs.{may_act, object_class};
ghost use Rattle.node_meaning.specs.Names.{found_home, home, home_for, is_static_operation, is_static_variable, operation_definition, operation_here, operation_home, variable_definition, variable_here, variable_home};
ghost use Rattle.eval_data.specs.Parts.{here_of};

use crate::look_ups::{operation_definition, variable_definition};
use eval_data::Here;
use spec_table::ClassTable;
use vdm_kinds::{Name, OpRef, OutOfMemory, VarRef};

/// The object on which a variable stands that is named alone or behind a class; none for a node that may not name it.
pub fn variable_here(
    table: &ClassTable,
    here: Here<'_>,
    variable: &VarRef,
) -> Result<Option<u32>, OutOfMemory>
    ensures { IfOk result (λ found. found ≡ variable_here (table_spec table.now) (here_of here.entry) variable.now) }
{
    let is_static = is_static_variable(table, variable);
    home_here(table, here, variable.class, is_static)
}

/// Where what a class defines stands for a node that names it without an object.
pub(crate) fn home_here(
    table: &ClassTable,
    here: Here<'_>,
    class: Name,
    is_static: bool,
) -> Result<Option<u32>, OutOfMemory>
    ensures { IfOk result (λ found. found ≡ home_for (here_of here.entry) (home (table_spec table.now) class is_static (here_of here.entry).me)) }
{
    let home = home(table, class, is_static, here.me)?;
    Ok(home_for(here, home))
}

/// The object on which an operation runs that is named alone or behind a class; none for a node that may not name it.
pub(crate) fn operation_here(
    table: &ClassTable,
    here: Here<'_>,
    op: Option<OpRef>,
) -> Result<Option<u32>, OutOfMemory>
    ensures { IfOk result (λ found. found ≡ operation_here (table_spec table.now) (here_of here.entry) op) }
{
    let home = found_home(table, op, here.me)?;
    Ok(home_for(here, home))
}

fn home_for(here: Here<'_>, home: Option<u32>) -> Option<u32>
    ensures { result ≡ home_for (here_of here.entry) home }
{
    if may_act(here) { home } else { None }
}

/// Whether a node may name variables and operations, and make objects.
pub(crate) fn may_act(here: Here<'_>) -> bool
    ensures { result ≡ may_act (here_of here.entry) }
{
    here.scope.is_none() || here.own.is_some()
}

/// The class of the object on which a node stands, where it stands on one.
pub(crate) fn object_class(here: Here<'_>) -> Option<Name>
    ensures { result ≡ object_class (here_of here.entry).me (here_of here.entry).own }
{
    match here.me {
        Some(_) => here.own,
        None => None,
    }
}

/// The object on which a variable stands, where this object was named, or is that of the node.
pub fn variable_home(
    table: &ClassTable,
    variable: &VarRef,
    object: Option<u32>,
) -> Result<Option<u32>, OutOfMemory>
    ensures { IfOk result (λ found. found ≡ variable_home (table_spec table.now) variable.now object) }
{
    let is_static = is_static_variable(table, variable);
    home(table, variable.class, is_static, object)
}

/// The object on which an operation runs.
fn operation_home(
    table: &ClassTable,
    op: &OpRef,
    object: Option<u32>,
) -> Result<Option<u32>, OutOfMemory>
    ensures { IfOk result (λ found. found ≡ operation_home (table_spec table.now) op.now object) }
{
    let is_static = is_static_operation(table, op);
    home(table, op.class, is_static, object)
}

/// The object on which an operation runs, where one was found.
pub(crate) fn found_home(
    table: &ClassTable,
    op: Option<OpRef>,
    object: Option<u32>,
) -> Result<Option<u32>, OutOfMemory>
    ensures { IfOk result (λ found. found ≡ found_home (table_spec table.now) op object) }
{
    match op {
        Some(op) => operation_home(table, &op, object),
        None => Ok(None),
    }
}

/// What is static stands on its class object.
fn home(
    table: &ClassTable,
    class: Name,
    is_static: bool,
    object: Option<u32>,
) -> Result<Option<u32>, OutOfMemory>
    ensures { IfOk result (λ found. found ≡ home (table_spec table.now) class is_static object) }
{
    if is_static {
        class_object(table, class)
    } else {
        Ok(object)
    }
}

/// The number of a class object. More classes than the numbers of objects count take more memory than there is.
fn class_object(table: &ClassTable, class: Name) -> Result<Option<u32>, OutOfMemory>
    ensures { IfOk result (λ found. found ≡ class_number (table_spec table.now) class) }
{
    let Some(number) = table.number(class) else {
        return Ok(None);
    };
    match u32::try_from(number) {
        Ok(number) => Ok(Some(number)),
        Err(_) => Err(OutOfMemory),
    }
}

/// Whether the variable is defined, and static.
pub(crate) fn is_static_variable(table: &ClassTable, variable: &VarRef) -> bool
    ensures { result ≡ is_static_variable (variable_definition (table_spec table.now) variable.now) }
{
    match variable_definition(table, variable) {
        Some(definition) => definition.access.is_static,
        None => false,
    }
}

/// Whether the operation is defined, and static.
fn is_static_operation(table: &ClassTable, op: &OpRef) -> bool
    ensures { result ≡ is_static_operation (operation_definition (table_spec table.now) op.now) }
{
    match operation_definition(table, op) {
        Some(definition) => definition.access.is_static,
        None => false,
    }
}
