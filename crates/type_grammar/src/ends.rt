// How types end.

ghost use Rattle.std.specs.Prelude.{◌≡◌, IfOk};
ghost use Rattle.type_tree.specs.TypeView.{type_view};
ghost use Rattle.type_reading.specs.Reading.{closed, settled, product_closed, union_closed, all_closed};
ghost use Rattle.type_grammar.specs.Views.{stack_view};

use crate::frame::{Frame, Top};
use crate::nodes::{product_of, union_of};
use crate::stack::{alternatives, factors, stack_top, with_part};
use std::alloc::Global;
use type_tree::TypeExpr;
use vdm_kinds::OutOfMemory;

/// The type that a single type ends: it goes into the collections and maps that it is the last part of.
pub fn settled(
    alloc: Global,
    tree: TypeExpr,
    frames: &mut Vec<Frame>,
) -> Result<TypeExpr, OutOfMemory>
    ensures { IfOk result (λ whole. closed (type_view whole) (stack_view frames.new.items) ≡ settled (type_view tree) (stack_view frames.old.items)) }
{
    let mut tree = tree;
    while let Top::Part = stack_top(frames) {
        tree = with_part(alloc, tree, frames)?;
    }
    Ok(tree)
}

/// The product that a single type ends, if it is a factor.
pub fn product_closed(tree: TypeExpr, frames: &mut Vec<Frame>) -> Result<TypeExpr, OutOfMemory>
    ensures { IfOk result (λ whole. closed (type_view whole) (stack_view frames.new.items) ≡ product_closed (type_view tree) (stack_view frames.old.items)) }
{
    match factors(frames) {
        Some(trees) => product_of(trees, tree),
        None => Ok(tree),
    }
}

/// The union that a product ends, if it is an alternative.
fn union_closed(tree: TypeExpr, frames: &mut Vec<Frame>) -> Result<TypeExpr, OutOfMemory>
    ensures { IfOk result (λ whole. closed (type_view whole) (stack_view frames.new.items) ≡ union_closed (type_view tree) (stack_view frames.old.items)) }
{
    match alternatives(frames) {
        Some(trees) => union_of(trees, tree),
        None => Ok(tree),
    }
}

/// The type that a single type ends, before a closing sign.
pub fn all_closed(tree: TypeExpr, frames: &mut Vec<Frame>) -> Result<TypeExpr, OutOfMemory>
    ensures { IfOk result (λ whole. closed (type_view whole) (stack_view frames.new.items) ≡ all_closed (type_view tree) (stack_view frames.old.items)) }
{
    let product = product_closed(tree, frames)?;
    union_closed(product, frames)
}
