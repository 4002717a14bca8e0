// The arguments of calls.

ghost use Rattle.std.specs.Prelude.{◌≡◌, IfOk};
ghost use Rattle.expr_tree.specs.View.{expr_trees, views_of};
ghost use Rattle.node_meaning.specs.Expressions.{arguments_of, places_of};

use expr_tree::Expr;
use std::alloc::Global;
use vdm_kinds::{OutOfMemory, Place};

/// How many arguments there are. More than a number of operations' parameters counts take more memory than there is.
pub(crate) fn count_of(arguments: &Vec<Expr>) -> Result<u32, OutOfMemory>
    ensures { IfOk result (λ n. n ≡ arguments_of (expr_trees (views_of arguments.now.items))) }
{
    count_in(arguments.as_slice())
}

#[tactic(auto, using(crate::proofs::Arguments::counted))]
fn count_in(arguments: &[Expr]) -> Result<u32, OutOfMemory>
    ensures { IfOk result (λ n. n ≡ arguments_of (expr_trees (views_of arguments.now))) }
{
    match u32::try_from(arguments.len()) {
        Ok(count) => Ok(count),
        Err(_) => Err(OutOfMemory),
    }
}

/// Where the arguments stand, in order.
pub(crate) fn places_of(alloc: Global, arguments: &Vec<Expr>) -> Result<Vec<Place>, OutOfMemory>
    ensures { IfOk result (λ places. places.items ≡ places_of (expr_trees (views_of arguments.now.items))) }
{
    places_in(alloc, arguments.as_slice())
}

fn places_in(alloc: Global, arguments: &[Expr]) -> Result<Vec<Place>, OutOfMemory>
    ensures { IfOk result (λ places. places.items ≡ places_of (expr_trees (views_of arguments.now))) }
{
    let mut places = Vec::with_capacity(alloc, arguments.len())?;
    for argument in arguments {
        places.push(argument.place())?;
    }
    Ok(places)
}
