// A member of a class, as it was read.

ghost use Rattle.std.specs.Prelude.{◌≡◌, map, option_map, slice_get};
ghost use Rattle.std.specs.Option.{option_and_then};
ghost use Rattle.expr_tree.specs.TypeDefView.{type_def_view};
ghost use Rattle.class_meaning.specs.Members.{of_type, of_value, of_variable, of_function, of_operation};
ghost use Rattle.vdm_tree.specs.ClassView.{class_view, block_view, value_def_view, variable_view, variable_item_view, function_view, operation_view};
ghost use Rattle.class_index.specs.Answers.{item_of, variable_in, located};
ghost use Rattle.class_meaning.specs.Found.{is_same_kind};
ghost use Rattle.spec_table.specs.Members.{item_view};

use class_index::MemberAt;
use class_meaning::MemberKind;
use expr_tree::TypeDef;
use vdm_tree::{Block, ClassDef, FunctionDef, OpDef, ValueDef, VarDef, VariableItem};

/// A member of a class.
#[derive(Clone, Copy)]
pub enum Item<'t> {
    TypeDef(&'t TypeDef),
    Value(&'t ValueDef),
    Variable(&'t VarDef),
    Function(&'t FunctionDef),
    Operation(&'t OpDef),
}

/// What stands at a place of a class. None where nothing does that has a name.
pub(crate) fn item_at(class: &ClassDef, at: MemberAt) -> Option<Item<'_>>
    ensures { option_map item_view result ≡ located (class_view class.now) at }
{
    let block = class.blocks.as_slice().get(at.block)?;
    item_in(block, at.item)
}

fn item_in(block: &Block, item: usize) -> Option<Item<'_>>
    ensures { option_map item_view result ≡ item_of (block_view block.now) item }
{
    match block {
        Block::Types(definitions, _) => type_at(definitions.as_slice(), item),
        Block::Values(definitions, _) => value_at(definitions.as_slice(), item),
        Block::Variables(items, _) => variable_at(items.as_slice(), item),
        Block::Functions(definitions, _) => function_at(definitions.as_slice(), item),
        Block::Operations(definitions, _) => operation_at(definitions.as_slice(), item),
        Block::Thread(_, _) => None,
        Block::Sync(_, _) => None,
    }
}

fn type_at(definitions: &[TypeDef], item: usize) -> Option<Item<'_>>
    ensures { option_map item_view result ≡ option_map of_type (slice_get (map type_def_view definitions.now) item) }
{
    let definition = definitions.get(item)?;
    Some(Item::TypeDef(definition))
}

fn value_at(definitions: &[ValueDef], item: usize) -> Option<Item<'_>>
    ensures { option_map item_view result ≡ option_map of_value (slice_get (map value_def_view definitions.now) item) }
{
    let definition = definitions.get(item)?;
    Some(Item::Value(definition))
}

fn variable_at(items: &[VariableItem], item: usize) -> Option<Item<'_>>
    ensures { option_map item_view result ≡ option_and_then variable_in (slice_get (map variable_item_view items.now) item) }
{
    let found = items.get(item)?;
    match found {
        VariableItem::Variable(definition) => Some(Item::Variable(definition)),
        VariableItem::Invariant(_, _) => None,
    }
}

fn function_at(definitions: &[FunctionDef], item: usize) -> Option<Item<'_>>
    ensures { option_map item_view result ≡ option_map of_function (slice_get (map function_view definitions.now) item) }
{
    let definition = definitions.get(item)?;
    Some(Item::Function(definition))
}

fn operation_at(definitions: &[OpDef], item: usize) -> Option<Item<'_>>
    ensures { option_map item_view result ≡ option_map of_operation (slice_get (map operation_view definitions.now) item) }
{
    let definition = definitions.get(item)?;
    Some(Item::Operation(definition))
}

impl Item<'_> {
    ghost use Rattle.class_meaning.specs.Members.{kind_of};

    /// What the member is.
    pub(crate) fn kind(&self) -> MemberKind
        ensures { result ≡ kind_of (item_view self.now) }
    {
        match self {
            Item::TypeDef(_) => MemberKind::TypeDef,
            Item::Value(_) => MemberKind::Value,
            Item::Variable(_) => MemberKind::Variable,
            Item::Function(_) => MemberKind::Function,
            Item::Operation(_) => MemberKind::Operation,
        }
    }
}

pub(crate) fn is_same_kind(a: MemberKind, b: MemberKind) -> bool
    ensures { result ≡ is_same_kind a b }
{
    match (a, b) {
        (MemberKind::TypeDef, MemberKind::TypeDef) => true,
        (MemberKind::Value, MemberKind::Value) => true,
        (MemberKind::Variable, MemberKind::Variable) => true,
        (MemberKind::Function, MemberKind::Function) => true,
        (MemberKind::Operation, MemberKind::Operation) => true,
        _ => false,
    }
}
