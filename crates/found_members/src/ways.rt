// In which way each member of a class is asked for.

ghost use Rattle.std.specs.Prelude.{◌≡◌, ◌++◌, map, OnOk};
ghost use Rattle.vdm_tree.specs.ClassView.{block_view, class_view, value_def_view, variable_item_view, function_view, operation_view};
ghost use Rattle.expr_tree.specs.TypeDefView.{type_def_view};
ghost use Rattle.abstract_syntax.specs.Classes.{variables_among};
ghost use Rattle.class_meaning.specs.Members.{class_members, members_in, of_type, of_value, of_variable, of_function, of_operation};
ghost use Rattle.found_members.specs.Ways.{key_of, way_of};

use class_meaning::Ask;
use expr_tree::TypeDef;
use vdm_kinds::OutOfMemory;
use vdm_tree::{Block, ClassDef, FunctionDef, OpDef, ValueDef, VariableItem};

/// What a way of asking is found by: its kind, the name, and the number of arguments.
pub(crate) type Key = (u8, u32, usize);

/// The key of a way of asking.
pub(crate) fn key_of(ask: Ask) -> Key
    ensures { result ≡ key_of ask }
{
    match ask {
        Ask::AsType(name) => (0, name.0, 0),
        Ask::ByName(name) => (1, name.0, 0),
        Ask::Called(name, count) => (2, name.0, count),
    }
}

fn push_types(ways: &mut Vec<Ask>, definitions: &[TypeDef]) -> Result<(), OutOfMemory>
    ensures { OnOk result (ways.new.items ≡ ways.old.items ++ map way_of (map of_type (map type_def_view definitions.now))) }
{
    for definition in definitions {
        ways.push(Ask::AsType(definition.name))?;
    }
    Ok(())
}

fn push_values(ways: &mut Vec<Ask>, definitions: &[ValueDef]) -> Result<(), OutOfMemory>
    ensures { OnOk result (ways.new.items ≡ ways.old.items ++ map way_of (map of_value (map value_def_view definitions.now))) }
{
    for definition in definitions {
        ways.push(Ask::ByName(definition.name))?;
    }
    Ok(())
}

fn push_variables(ways: &mut Vec<Ask>, items: &[VariableItem]) -> Result<(), OutOfMemory>
    ensures { OnOk result (ways.new.items ≡ ways.old.items ++ map way_of (map of_variable (variables_among (map variable_item_view items.now)))) }
{
    for item in items {
        if let VariableItem::Variable(definition) = item {
            ways.push(Ask::ByName(definition.name))?;
        }
    }
    Ok(())
}

fn push_functions(ways: &mut Vec<Ask>, definitions: &[FunctionDef]) -> Result<(), OutOfMemory>
    ensures { OnOk result (ways.new.items ≡ ways.old.items ++ map way_of (map of_function (map function_view definitions.now))) }
{
    for definition in definitions {
        ways.push(Ask::Called(definition.name, definition.patterns.len()))?;
    }
    Ok(())
}

fn push_operations(ways: &mut Vec<Ask>, definitions: &[OpDef]) -> Result<(), OutOfMemory>
    ensures { OnOk result (ways.new.items ≡ ways.old.items ++ map way_of (map of_operation (map operation_view definitions.now))) }
{
    for definition in definitions {
        ways.push(Ask::Called(definition.name, definition.patterns.len()))?;
    }
    Ok(())
}

fn push_block(ways: &mut Vec<Ask>, block: &Block) -> Result<(), OutOfMemory>
    ensures { OnOk result (ways.new.items ≡ ways.old.items ++ map way_of (members_in (block_view block.now))) }
{
    match block {
        Block::Types(definitions, _) => push_types(ways, definitions),
        Block::Values(definitions, _) => push_values(ways, definitions),
        Block::Variables(items, _) => push_variables(ways, items),
        Block::Functions(definitions, _) => push_functions(ways, definitions),
        Block::Operations(definitions, _) => push_operations(ways, definitions),
        Block::Thread(_, _) | Block::Sync(_, _) => Ok(()),
    }
}

/// Adds the way in which each member of a class is asked for.
pub(crate) fn push_class(ways: &mut Vec<Ask>, class: &ClassDef) -> Result<(), OutOfMemory>
    ensures { OnOk result (ways.new.items ≡ ways.old.items ++ map way_of (class_members (class_view class.now))) }
{
    for block in &class.blocks {
        push_block(ways, block)?;
    }
    Ok(())
}
