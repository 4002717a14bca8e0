// What each class has of its own.

ghost use Rattle.std.specs.Prelude.{◌≡◌, ◌++◌, Bool, not, if◌then◌else◌, map, IfOk, OnOk};
ghost use Rattle.abstract_syntax.specs.Classes.{variables_in, operations_in};
ghost use Rattle.vdm_tree.specs.ClassView.{class_view, block_view};
ghost use Rattle.class_meaning.specs.Objects.{own_operation_names};
ghost use Rattle.ancestor_lines.specs.Parts.{chosen, own_variables, names_of, lists_of};

use std::alloc::Global;
use vdm_kinds::{Access, Name, OutOfMemory, VarRef};
use vdm_tree::{Block, ClassDef, VariableItem};

/// Whether a variable is static, or that it is not.
fn is_chosen(access: Access, is_static: bool) -> bool
    ensures { result ≡ (if is_static then access.is_static else not access.is_static) }
{
    if is_static {
        access.is_static
    } else {
        !access.is_static
    }
}

/// Adds the static variables of a block, or the others.
fn push_variables(
    found: &mut Vec<VarRef>,
    class: Name,
    is_static: bool,
    block: &Block,
) -> Result<(), OutOfMemory>
    ensures { OnOk result (found.new.items ≡ found.old.items ++ chosen class is_static (variables_in (block_view block.now))) }
{
    if let Block::Variables(items, _) = block {
        for item in items {
            if let VariableItem::Variable(variable) = item {
                if is_chosen(variable.access, is_static) {
                    found.push(VarRef {
                        class,
                        name: variable.name,
                    })?;
                }
            }
        }
    }
    Ok(())
}

/// The static variables of a class in text order, or the others.
fn variables_of(
    alloc: Global,
    class: &ClassDef,
    is_static: bool,
) -> Result<Vec<VarRef>, OutOfMemory>
    ensures { IfOk result (λ found. found.items ≡ own_variables is_static (class_view class.now)) }
{
    let mut found = Vec::new(alloc);
    for block in &class.blocks {
        push_variables(&mut found, class.name, is_static, block)?;
    }
    Ok(found)
}

/// The same of each class.
pub(crate) fn own_variables(
    alloc: Global,
    classes: &[ClassDef],
    is_static: bool,
) -> Result<Vec<Vec<VarRef>>, OutOfMemory>
    ensures { IfOk result (λ found. lists_of found.items ≡ map (own_variables is_static) (map class_view classes.now)) }
{
    let mut found = Vec::new(alloc);
    for class in classes {
        found.push(variables_of(alloc, class, is_static)?)?;
    }
    Ok(found)
}

/// Adds the names of the operations of a block.
fn push_operations(found: &mut Vec<Name>, block: &Block) -> Result<(), OutOfMemory>
    ensures { OnOk result (found.new.items ≡ found.old.items ++ names_of (operations_in (block_view block.now))) }
{
    if let Block::Operations(definitions, _) = block {
        for definition in definitions {
            found.push(definition.name)?;
        }
    }
    Ok(())
}

/// The names of a class's operations in text order.
fn operations_of(alloc: Global, class: &ClassDef) -> Result<Vec<Name>, OutOfMemory>
    ensures { IfOk result (λ found. found.items ≡ own_operation_names (class_view class.now)) }
{
    let mut found = Vec::new(alloc);
    for block in &class.blocks {
        push_operations(&mut found, block)?;
    }
    Ok(found)
}

/// The same of each class.
pub(crate) fn own_operations(
    alloc: Global,
    classes: &[ClassDef],
) -> Result<Vec<Vec<Name>>, OutOfMemory>
    ensures { IfOk result (λ found. lists_of found.items ≡ map own_operation_names (map class_view classes.now)) }
{
    let mut found = Vec::new(alloc);
    for class in classes {
        found.push(operations_of(alloc, class)?)?;
    }
    Ok(found)
}
