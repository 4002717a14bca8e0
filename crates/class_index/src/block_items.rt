// The items of a block: how many there are, and how each member among them is asked for.

ghost use Rattle.std.specs.Prelude.{◌≡◌, length, map, slice_get, option_map};
ghost use Rattle.std.specs.Option.{option_and_then};
ghost use Rattle.expr_tree.specs.TypeDefView.{type_def_view};
ghost use Rattle.vdm_tree.specs.ClassView.{block_view, value_def_view, variable_item_view, function_view, operation_view};
ghost use Rattle.class_meaning.specs.Members.{of_type, of_value, of_function, of_operation};
ghost use Rattle.class_index.specs.Answers.{variable_in, item_of};
ghost use Rattle.class_index.specs.Places.{items_of, kind_and_ask};

use class_meaning::{Ask, MemberKind};
use vdm_tree::{Block, FunctionDef, OpDef, TypeDef, ValueDef, VariableItem};

/// How many items a block has.
pub(crate) fn item_count(block: &Block) -> usize
    ensures { result ≡ length (items_of (block_view block.now)) }
{
    match block {
        Block::Types(definitions, _) => definitions.len(),
        Block::Values(definitions, _) => definitions.len(),
        Block::Variables(items, _) => items.len(),
        Block::Functions(definitions, _) => definitions.len(),
        Block::Operations(definitions, _) => definitions.len(),
        _ => 0,
    }
}

/// What the item of a number is and how it is asked for, where it is a member.
pub(crate) fn member_in(block: &Block, item: usize) -> Option<(MemberKind, Ask)>
    ensures { result ≡ option_map kind_and_ask (item_of (block_view block.now) item) }
{
    match block {
        Block::Types(definitions, _) => type_in(definitions.as_slice(), item),
        Block::Values(definitions, _) => value_in(definitions.as_slice(), item),
        Block::Variables(items, _) => variable_in(items.as_slice(), item),
        Block::Functions(definitions, _) => function_in(definitions.as_slice(), item),
        Block::Operations(definitions, _) => operation_in(definitions.as_slice(), item),
        _ => None,
    }
}

fn type_in(definitions: &[TypeDef], item: usize) -> Option<(MemberKind, Ask)>
    ensures { result ≡ option_map kind_and_ask (option_map of_type (slice_get (map type_def_view definitions.now) item)) }
{
    let definition = definitions.get(item)?;
    Some((MemberKind::TypeDef, Ask::AsType(definition.name)))
}

fn value_in(definitions: &[ValueDef], item: usize) -> Option<(MemberKind, Ask)>
    ensures { result ≡ option_map kind_and_ask (option_map of_value (slice_get (map value_def_view definitions.now) item)) }
{
    let definition = definitions.get(item)?;
    Some((MemberKind::Value, Ask::ByName(definition.name)))
}

fn variable_in(items: &[VariableItem], item: usize) -> Option<(MemberKind, Ask)>
    ensures { result ≡ option_map kind_and_ask (option_and_then variable_in (slice_get (map variable_item_view items.now) item)) }
{
    match items.get(item)? {
        VariableItem::Variable(variable) => {
            Some((MemberKind::Variable, Ask::ByName(variable.name)))
        }
        VariableItem::Invariant(_, _) => None,
    }
}

fn function_in(definitions: &[FunctionDef], item: usize) -> Option<(MemberKind, Ask)>
    ensures { result ≡ option_map kind_and_ask (option_map of_function (slice_get (map function_view definitions.now) item)) }
{
    let definition = definitions.get(item)?;
    let count = definition.patterns.len();
    Some((MemberKind::Function, Ask::Called(definition.name, count)))
}

fn operation_in(definitions: &[OpDef], item: usize) -> Option<(MemberKind, Ask)>
    ensures { result ≡ option_map kind_and_ask (option_map of_operation (slice_get (map operation_view definitions.now) item)) }
{
    let definition = definitions.get(item)?;
    let count = definition.patterns.len();
    Some((MemberKind::Operation, Ask::Called(definition.name, count)))
}
