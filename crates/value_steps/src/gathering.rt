// The values of parts, one after another.

ghost use Rattle.std.specs.Prelude.{◌≡◌, IfOk};
ghost use Rattle.expr_tree.specs.View.{view_of};
ghost use Rattle.node_meaning.specs.Envs.{Locals};
ghost use Rattle.node_meaning.specs.Needs.{Setting};
ghost use Rattle.node_meaning.specs.Strict.{collected};
ghost use Rattle.node_meaning.specs.Tasks.{evaluated};
ghost use Rattle.eval_data.specs.Parts.{here_of, parts_of};
ghost use Rattle.eval_data.specs.Steps.{code_of, collect, then_of};
ghost use Rattle.value_steps.specs.Further.{gathered_code};

use crate::parts::next_part;
use eval_data::{Collecting, Frame, Here, Parts, Step, Then, Use};
use expr_tree::Expr;
use std::alloc::Global;
use vdm_kinds::{OutOfMemory, Place};
use vdm_values::Value;

/// What comes of parts whose values are wanted.
#[derive(Drop)]
pub enum Gathered<'t> {
    /// One of them is evaluated.
    Part(Step<'t>),
    /// All values are there: where the node stands, its place, the values, and what is done with them.
    All(Here<'t>, Place, Vec<Value>, Then<'t>),
}

/// The values of the parts behind those that came, and what is done with all of them.
pub fn collected<'t>(
    alloc: Global,
    here: Here<'t>,
    place: Place,
    parts: Parts<'t>,
    done: Vec<Value>,
    then: Then<'t>,
) -> Result<Gathered<'t>, OutOfMemory>
    ensures { IfOk result (λ g. (setting : Setting) (locals : Locals) → gathered_code setting locals g ≡ collected (here_of here.entry) place (parts_of parts.entry) done.items (then_of setting then.entry (here_of here.entry) place) locals) }
{
    match next_part(parts) {
        None => Ok(Gathered::All(here, place, done, then)),
        Some((tree, rest)) => {
            let collecting = Collecting {
                here,
                place,
                rest,
                done,
                then,
            };
            Ok(Gathered::Part(part_among(alloc, tree, collecting)?))
        }
    }
}

/// A part is evaluated, and its value stands behind those that came.
pub fn part_among<'t>(
    alloc: Global,
    tree: &'t Expr,
    collecting: Collecting<'t>,
) -> Result<Step<'t>, OutOfMemory>
    ensures { IfOk result (λ s. (setting : Setting) (locals : Locals) → code_of setting locals s ≡ evaluated (here_of collecting.entry.here) locals (view_of tree.entry.now) collecting.entry.place (collect setting collecting.entry)) }
{
    let here = collecting.here;
    let place = collecting.place;
    let collecting = Box::new(alloc, collecting)?;
    Ok(Step::Part(here, tree, Frame::With(Use::Collect(collecting), place)))
}

/// A value came, behind those before it.
pub fn with_value<'t>(
    alloc: Global,
    collecting: Box<Collecting<'t>>,
    value: Value,
) -> Result<Gathered<'t>, OutOfMemory>
    ensures { IfOk result (λ g. (setting : Setting) (locals : Locals) → gathered_code setting locals g ≡ collect setting collecting.entry.value value locals) }
{
    let (here, place, rest, done, then) = Box::into_inner(collecting).into_parts();
    let mut done = done;
    done.push(value)?;
    collected(alloc, here, place, rest, done, then)
}
