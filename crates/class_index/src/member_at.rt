// Where a member stands in its class, and what stands there.

ghost use Rattle.std.specs.Prelude.{◌≡◌, map, slice_get, option_map};
ghost use Rattle.std.specs.Option.{option_and_then};
ghost use Rattle.expr_tree.specs.TypeDefView.{type_def_view};
ghost use Rattle.vdm_tree.specs.ClassView.{class_view, block_view, value_def_view, variable_view, variable_item_view, function_view, operation_view};
ghost use Rattle.class_meaning.specs.Found.{type_of};
ghost use Rattle.class_index.specs.Answers.{variable_in as among_variables, item_of, located, value_of, variable_of, function_of, operation_of};

use class_meaning::MemberKind;
use vdm_tree::{Block, ClassDef, FunctionDef, OpDef, TypeDef, ValueDef, VarDef, VariableItem};

/// A member of a class: what it is, and how many blocks of its class, and how many items of its block, stand before it.
#[derive(Clone, Copy, Debug, PartialEq, Eq)]
pub struct MemberAt {
    pub kind: MemberKind,
    pub block: usize,
    pub item: usize,
}

/// The type at a place of a class.
pub fn type_at<'t>(class: &'t ClassDef, at: MemberAt) -> Option<&'t TypeDef>
    ensures { option_map (λ d. type_def_view d.now) result ≡ option_and_then type_of (located (class_view class.now) at) }
{
    let block = class.blocks.as_slice().get(at.block)?;
    type_in(block, at.item)
}

fn type_in<'t>(block: &'t Block, item: usize) -> Option<&'t TypeDef>
    ensures { option_map (λ d. type_def_view d.now) result ≡ option_and_then type_of (item_of (block_view block.now) item) }
{
    match block {
        Block::Types(definitions, _) => definitions.as_slice().get(item),
        _ => None,
    }
}

/// The class value at a place of a class.
pub fn value_at<'t>(class: &'t ClassDef, at: MemberAt) -> Option<&'t ValueDef>
    ensures { option_map (λ d. value_def_view d.now) result ≡ option_and_then value_of (located (class_view class.now) at) }
{
    let block = class.blocks.as_slice().get(at.block)?;
    value_in(block, at.item)
}

fn value_in<'t>(block: &'t Block, item: usize) -> Option<&'t ValueDef>
    ensures { option_map (λ d. value_def_view d.now) result ≡ option_and_then value_of (item_of (block_view block.now) item) }
{
    match block {
        Block::Values(definitions, _) => definitions.as_slice().get(item),
        _ => None,
    }
}

/// The variable at a place of a class.
pub fn variable_at<'t>(class: &'t ClassDef, at: MemberAt) -> Option<&'t VarDef>
    ensures { option_map (λ d. variable_view d.now) result ≡ option_and_then variable_of (located (class_view class.now) at) }
{
    let block = class.blocks.as_slice().get(at.block)?;
    variable_in(block, at.item)
}

fn variable_in<'t>(block: &'t Block, item: usize) -> Option<&'t VarDef>
    ensures { option_map (λ d. variable_view d.now) result ≡ option_and_then variable_of (item_of (block_view block.now) item) }
{
    match block {
        Block::Variables(items, _) => variable_among(items.as_slice(), item),
        _ => None,
    }
}

fn variable_among<'t>(items: &'t [VariableItem], item: usize) -> Option<&'t VarDef>
    ensures { option_map (λ d. variable_view d.now) result ≡ option_and_then variable_of (option_and_then among_variables (slice_get (map variable_item_view items.now) item)) }
{
    match items.get(item)? {
        VariableItem::Variable(variable) => Some(variable),
        VariableItem::Invariant(_, _) => None,
    }
}

/// The function at a place of a class.
pub fn function_at<'t>(class: &'t ClassDef, at: MemberAt) -> Option<&'t FunctionDef>
    ensures { option_map (λ d. function_view d.now) result ≡ option_and_then function_of (located (class_view class.now) at) }
{
    let block = class.blocks.as_slice().get(at.block)?;
    function_in(block, at.item)
}

fn function_in<'t>(block: &'t Block, item: usize) -> Option<&'t FunctionDef>
    ensures { option_map (λ d. function_view d.now) result ≡ option_and_then function_of (item_of (block_view block.now) item) }
{
    match block {
        Block::Functions(definitions, _) => definitions.as_slice().get(item),
        _ => None,
    }
}

/// The operation at a place of a class.
pub fn operation_at<'t>(class: &'t ClassDef, at: MemberAt) -> Option<&'t OpDef>
    ensures { option_map (λ d. operation_view d.now) result ≡ option_and_then operation_of (located (class_view class.now) at) }
{
    let block = class.blocks.as_slice().get(at.block)?;
    operation_in(block, at.item)
}

fn operation_in<'t>(block: &'t Block, item: usize) -> Option<&'t OpDef>
    ensures { option_map (λ d. operation_view d.now) result ≡ option_and_then operation_of (item_of (block_view block.now) item) }
{
    match block {
        Block::Operations(definitions, _) => definitions.as_slice().get(item),
        _ => None,
    }
}
