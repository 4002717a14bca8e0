// Whether classes have an operation, or a function, of a kind.

ghost use Rattle.std.specs.Prelude.{◌≡◌, ℕ, Some, map};
ghost use Rattle.std.specs.List.{list_any};
ghost use Rattle.vdm_kinds.specs.declared.name.Name.{Name as NameNumber};
ghost use Rattle.abstract_syntax.specs.Classes.{operations_in};
ghost use Rattle.class_meaning.specs.Classes.{class_number};
ghost use Rattle.class_meaning.specs.Members.{of_function, of_operation, members_in};
ghost use Rattle.class_checks.specs.Callees.{has_called, has_constructor as class_has_constructor, has_some_called as some_called, is_called, is_constructor as is_constructor_of};
ghost use Rattle.class_checks.specs.Members.{has_synchronised as class_has_synchronised, has_synchronised_of, is_counted, is_synchronised as is_synchronised_in};
ghost use Rattle.check_scopes.specs.Below.spec_table.specs.Meanings.{class_named};
ghost use Rattle.check_scopes.specs.Below.spec_table.specs.Tables.{table_spec};
ghost use Rattle.vdm_tree.specs.ClassView.{block_view, class_view, function_view, operation_view};

use check_scopes::handed::spec_table::ClassTable;
use vdm_kinds::Name;
use vdm_tree::{Block, ClassDef, FunctionDef, OpDef};

/// Whether a class or an ancestor has an operation of the name whose history is counted.
pub(crate) fn some_synchronised(table: &ClassTable, class: Name, name: Name) -> bool
    ensures { result ≡ is_counted (table_spec table.now) (class_number (table_spec table.now) class) name }
{
    any_synchronised(table, table.ancestors(class), name)
}

fn any_synchronised(table: &ClassTable, line: &[Name], name: Name) -> bool
    ensures { result ≡ list_any (λ (class : NameNumber). has_synchronised_of name (class_named (table_spec table.now) class)) line.now }
{
    for class in line {
        if is_synchronised_there(table, *class, name) {
            return true;
        }
    }
    false
}

fn is_synchronised_there(table: &ClassTable, class: Name, name: Name) -> bool
    ensures { result ≡ has_synchronised_of name (class_named (table_spec table.now) class) }
{
    match table.number(class) {
        Some(_) => has_synchronised(table.class(class), name),
        None => false,
    }
}

fn has_synchronised(class: &ClassDef, name: Name) -> bool
    ensures { result ≡ class_has_synchronised name (class_view class.now) }
{
    for block in &class.blocks {
        if some_synchronised_in(block, class, name) {
            return true;
        }
    }
    false
}

fn some_synchronised_in(block: &Block, class: &ClassDef, name: Name) -> bool
    ensures { result ≡ list_any (is_synchronised_in name (class_view class.now)) (operations_in (block_view block.now)) }
{
    some_synchronised_of(operations_of(block), class, name)
}

fn some_synchronised_of(operations: &[OpDef], class: &ClassDef, name: Name) -> bool
    ensures { result ≡ list_any (is_synchronised_in name (class_view class.now)) (map operation_view operations.now) }
{
    for operation in operations {
        if is_synchronised(operation, class, name) {
            return true;
        }
    }
    false
}

fn is_synchronised(operation: &OpDef, class: &ClassDef, name: Name) -> bool
    ensures { result ≡ is_synchronised_in name (class_view class.now) (operation_view operation.now) }
{
    name.0 == operation.name.0 && !operation.access.is_static && name.0 != class.name.0
}

fn operations_of(block: &Block) -> &[OpDef]
    ensures { map operation_view result.now ≡ operations_in (block_view block.now) }
{
    match block {
        Block::Operations(definitions, _) => definitions.as_slice(),
        Block::Types(_, _)
        | Block::Values(_, _)
        | Block::Variables(_, _)
        | Block::Functions(_, _)
        | Block::Thread(_, _)
        | Block::Sync(_, _) => &[],
    }
}

/// Whether a class has a constructor of its own, with whatever number of parameters.
pub fn has_constructor(class: &ClassDef) -> bool
    ensures { result ≡ class_has_constructor (class_view class.now) }
{
    for block in &class.blocks {
        if some_constructor_in(block, class) {
            return true;
        }
    }
    false
}

fn some_constructor_in(block: &Block, class: &ClassDef) -> bool
    ensures { result ≡ list_any (is_constructor_of (class_view class.now)) (operations_in (block_view block.now)) }
{
    some_constructor_of(operations_of(block), class)
}

fn some_constructor_of(operations: &[OpDef], class: &ClassDef) -> bool
    ensures { result ≡ list_any (is_constructor_of (class_view class.now)) (map operation_view operations.now) }
{
    for operation in operations {
        if class.name.0 == operation.name.0 {
            return true;
        }
    }
    false
}

/// Whether a class or an ancestor has a function or an operation of the name, with whatever number of parameters.
pub fn has_some_called(table: &ClassTable, class: Name, name: Name) -> bool
    ensures { (k : ℕ) → class_number (table_spec table.now) class ≡ Some k → result ≡ some_called (table_spec table.now) name k }
{
    any_called(table, table.ancestors(class), name)
}

fn any_called(table: &ClassTable, line: &[Name], name: Name) -> bool
    ensures { result ≡ list_any (λ (class : NameNumber). has_called name (class_named (table_spec table.now) class)) line.now }
{
    for class in line {
        if is_called_there(table, *class, name) {
            return true;
        }
    }
    false
}

fn is_called_there(table: &ClassTable, class: Name, name: Name) -> bool
    ensures { result ≡ has_called name (class_named (table_spec table.now) class) }
{
    match table.number(class) {
        Some(_) => has_called_itself(table.class(class), name),
        None => false,
    }
}

fn has_called_itself(class: &ClassDef, name: Name) -> bool
    ensures { result ≡ has_called name (Some (class_view class.now)) }
{
    for block in &class.blocks {
        if some_called_in(block, name) {
            return true;
        }
    }
    false
}

fn some_called_in(block: &Block, name: Name) -> bool
    ensures { result ≡ list_any (is_called name) (members_in (block_view block.now)) }
{
    match block {
        Block::Functions(definitions, _) => some_function(definitions.as_slice(), name),
        Block::Operations(definitions, _) => some_operation(definitions.as_slice(), name),
        Block::Types(_, _) => false,
        Block::Values(_, _) => false,
        Block::Variables(_, _) => false,
        Block::Thread(_, _) => false,
        Block::Sync(_, _) => false,
    }
}

fn some_function(definitions: &[FunctionDef], name: Name) -> bool
    ensures { result ≡ list_any (is_called name) (map of_function (map function_view definitions.now)) }
{
    for definition in definitions {
        if name.0 == definition.name.0 {
            return true;
        }
    }
    false
}

fn some_operation(definitions: &[OpDef], name: Name) -> bool
    ensures { result ≡ list_any (is_called name) (map of_operation (map operation_view definitions.now)) }
{
    for definition in definitions {
        if name.0 == definition.name.0 {
            return true;
        }
    }
    false
}
