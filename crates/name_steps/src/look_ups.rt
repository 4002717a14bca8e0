// What names stand for, by the table of the classes.

ghost use Rattle.std.specs.Prelude.{◌≡◌, List, option_map};
ghost use Rattle.std.specs.Borrow.{Bor};
ghost use Rattle.vdm_kinds.specs.declared.member.VarRef.{VarRef};
ghost use Rattle.vdm_tree.specs.ClassView.{variable_view, operation_view};
ghost use Rattle.vdm_tree.specs.declared.class_def.VarDef.{VarDef};
ghost use Rattle.vdm_tree.specs.declared.class_def.OpDef.{OpDef};
ghost use Rattle.spec_table.specs.Tables.{table_spec};
ghost use Rattle.node_meaning.specs.Expressions.{class_for};
ghost use Rattle.node_meaning.specs.Fitting.{descends};
ghost use Rattle.node_meaning.specs.Names.{one_operation, one_variable, value_in, function_in, operation_in, variable_in, variable_definition, variables_of, operation_definition, operation_reached, own_named, own_reached};

use class_meaning::{OpFound, VarFound};
use expr_tree::TypeNames;
use spec_table::ClassTable;
use vdm_kinds::{Name, OpRef, VarRef};
use vdm_tree::{OpDef, VarDef};

/// The variable that a name means in the class in which a node stands.
pub fn variable_in(table: &ClassTable, scope: Option<Name>, name: Name) -> Option<VarRef>
    ensures { result ≡ variable_in (table_spec table.now) scope name }
{
    match scope {
        Some(class) => one_variable(table.find_var(class, name)),
        None => None,
    }
}

fn one_variable(found: VarFound) -> Option<VarRef>
    ensures { result ≡ one_variable found }
{
    match found {
        VarFound::One(variable) => Some(variable),
        VarFound::Several => None,
        VarFound::None => None,
    }
}

/// The class value that a name means in the class in which a node stands.
pub fn value_in(table: &ClassTable, scope: Option<Name>, name: Name) -> Option<VarRef>
    ensures { result ≡ value_in (table_spec table.now) scope name }
{
    match scope {
        Some(class) => one_variable(table.find_value(class, name)),
        None => None,
    }
}

/// The function that a name with so many arguments means in the class in which a node stands.
pub fn function_in(table: &ClassTable, scope: Option<Name>, name: Name, arity: u32) -> Option<OpRef>
    ensures { result ≡ function_in (table_spec table.now) scope name arity }
{
    match scope {
        Some(class) => one_operation(table.find_fn(class, name, arity)),
        None => None,
    }
}

/// The operation that a name with so many arguments means in a class.
pub fn operation_in(
    table: &ClassTable,
    scope: Option<Name>,
    name: Name,
    arity: u32,
) -> Option<OpRef>
    ensures { result ≡ operation_in (table_spec table.now) scope name arity }
{
    match scope {
        Some(class) => one_operation(table.find_op(class, name, arity)),
        None => None,
    }
}

fn one_operation(found: OpFound) -> Option<OpRef>
    ensures { result ≡ one_operation found }
{
    match found {
        OpFound::One(op) => Some(op),
        OpFound::Several => None,
        OpFound::None => None,
    }
}

/// The definition of a variable in its class.
pub fn variable_definition<'t>(table: &'t ClassTable, variable: &VarRef) -> Option<&'t VarDef>
    ensures { option_map (λ (d : Bor VarDef). variable_view d.now) result ≡ variable_definition (table_spec table.now) variable.now }
{
    table.variable(variable)
}

/// The variables of an object of a class, in order. None where there is no such class.
pub fn variables_of(table: &ClassTable, class: Name) -> Option<&[VarRef]>
    ensures { option_map (λ (vs : Bor (List VarRef)). vs.now) result ≡ variables_of (table_spec table.now) class }
{
    table.number(class)?;
    Some(table.layout(class))
}

/// The definition of an operation in its class.
pub fn operation_definition<'t>(table: &'t ClassTable, op: &OpRef) -> Option<&'t OpDef>
    ensures { option_map (λ (d : Bor OpDef). operation_view d.now) result ≡ operation_definition (table_spec table.now) op.now }
{
    table.operation(op)
}

/// The operation that a call through an object of a class reaches, where the call stands in the class `scope` or in none.
pub fn operation_reached(
    table: &ClassTable,
    scope: Option<Name>,
    class: Name,
    name: Name,
    arity: u32,
) -> Option<OpRef>
    ensures { result ≡ operation_reached (table_spec table.now) scope class name arity }
{
    table.number(class)?;
    table.reached(scope, class, name, arity)
}

/// The operation that a call with no object before it reaches: that through an object of the class `own`, on which the node stands, or
/// else the one that its class has.
fn own_reached(
    table: &ClassTable,
    scope: Option<Name>,
    own: Option<Name>,
    name: Name,
    arity: u32,
) -> Option<OpRef>
    ensures { result ≡ own_reached (table_spec table.now) scope own name arity }
{
    match own {
        Some(class) => operation_reached(table, scope, class, name, arity),
        None => operation_in(table, scope, name, arity),
    }
}

/// ... where the name means an operation in the class `scope`. What it means otherwise hides the operations of classes below.
pub(crate) fn own_named(
    table: &ClassTable,
    scope: Option<Name>,
    own: Option<Name>,
    name: Name,
    arity: u32,
) -> Option<OpRef>
    ensures { result ≡ own_named (table_spec table.now) scope own name arity }
{
    operation_in(table, scope, name, arity)?;
    own_reached(table, scope, own, name, arity)
}

/// The class, for an object of the class `own`, which has to have it among its ancestors.
pub(crate) fn class_for(table: &ClassTable, own: Name, class: Name) -> Option<Name>
    ensures { result ≡ class_for (table_spec table.now) own class }
{
    if descends(table, own, class) {
        Some(class)
    } else {
        None
    }
}

fn descends(table: &ClassTable, class: Name, ancestor: Name) -> bool
    ensures { result ≡ descends (table_spec table.now) class ancestor }
{
    table.is_kind_of(class, ancestor)
}
