// Targets of assignments, taken out of the expressions that they are written as.

ghost use Rattle.std.specs.Prelude.{◌≡◌, IfOk, [], map, option_map, reverse};
ghost use Rattle.expr_tree.specs.View.{boxed_view, views_of, expr_trees};
ghost use Rattle.vdm_tree.specs.StmtView.{target_view, target_step_view};
ghost use Rattle.stmt_reading.specs.Statements.{target_of};
ghost use Rattle.stmt_parts.specs.Targets.{IsOutermost, begun_in, only};

use expr_tree::Expr;
use std::alloc::Global;
use std::mem::replace;
use vdm_kinds::{Name, OutOfMemory, Place};
use vdm_tree::{Target, TargetStep};

/// A variable, in which a target begins.
#[derive(Drop)]
pub(crate) enum Root {
    Name(Name, Place),
    /// The class, the name, and where that and the class stand.
    Qualified(Name, Name, Place, Place),
}

/// What an expression is as a target.
#[derive(Drop)]
pub(crate) enum Outermost {
    /// A step, and the expression before it.
    Step(Box<Expr>, TargetStep),
    Root(Root),
    /// No target.
    Other,
}

/// The only one of arguments, taken out.
fn only(alloc: Global, arguments: &mut Vec<Expr>) -> Result<Option<Box<Expr>>, OutOfMemory>
    ensures { IfOk result (λ argument. option_map boxed_view argument ≡ only (expr_trees (views_of arguments.old.items))) }
{
    if arguments.len() > 1 {
        return Ok(None);
    }
    match arguments.pop() {
        Some(argument) => Ok(Some(Box::new(alloc, argument)?)),
        None => Ok(None),
    }
}

/// What stands there, taken out of a tree that goes.
fn taken(alloc: Global, part: &mut Box<Expr>, place: Place) -> Result<Box<Expr>, OutOfMemory>
    ensures { IfOk result (λ tree. boxed_view tree ≡ boxed_view part.old) }
{
    Ok(replace(part, Box::new(alloc, Expr::Time(place))?))
}

/// What an expression is as a target.
fn taken_apart(alloc: Global, tree: Box<Expr>) -> Result<Outermost, OutOfMemory>
    ensures { IfOk result (λ found. IsOutermost (boxed_view tree) found) }
{
    let mut tree = tree;
    match tree.as_mut() {
        Expr::Name(name, place) => Ok(Outermost::Root(Root::Name(*name, *place))),
        Expr::Qualified(class, name, name_place, place) => Ok(Outermost::Root(Root::Qualified(
            *class,
            *name,
            *name_place,
            *place,
        ))),
        Expr::Select(read, name, name_place, place) => {
            let step = TargetStep::Field(*name, *name_place, *place);
            Ok(Outermost::Step(taken(alloc, read, *place)?, step))
        }
        Expr::Apply(read, arguments, place) => match only(alloc, arguments)? {
            Some(index) => Ok(Outermost::Step(
                taken(alloc, read, *place)?,
                TargetStep::Element(index, *place),
            )),
            None => Ok(Outermost::Other),
        },
        _ => Ok(Outermost::Other),
    }
}

/// The target that begins in a variable, with these steps, the innermost first.
fn begun_in(root: Root, steps: Vec<TargetStep>) -> Target
    ensures { target_view result ≡ begun_in root (map target_step_view steps.items) }
{
    match root {
        Root::Name(name, place) => Target::variable(name, steps, place),
        Root::Qualified(class, name, name_place, place) => {
            Target::of_class(class, name, name_place, steps, place)
        }
    }
}

/// The target that begins in a variable, with these steps, the outermost first.
fn rooted(root: Root, steps: Vec<TargetStep>) -> Target
    ensures { target_view result ≡ begun_in root (reverse (map target_step_view steps.items)) }
{
    let mut steps = steps;
    steps.reverse();
    begun_in(root, steps)
}

/// The target that an expression is, if it is one.
pub(crate) fn target_of(alloc: Global, read: Box<Expr>) -> Result<Option<Target>, OutOfMemory>
    ensures { IfOk result (λ target. option_map target_view target ≡ target_of (boxed_view read) []) }
{
    let mut steps = Vec::new(alloc);
    let mut rest = read;
    loop {
        match taken_apart(alloc, rest)? {
            Outermost::Step(inner, step) => {
                steps.push(step)?;
                rest = inner;
            }
            Outermost::Root(root) => return Ok(Some(rooted(root, steps))),
            Outermost::Other => return Ok(None),
        }
    }
}
