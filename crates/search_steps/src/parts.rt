// Parts that stand in boxes.

ghost use Rattle.std.specs.Prelude.{◌≡◌, IfOk};
ghost use Rattle.abstract_syntax.specs.Expressions.{one_expr};
ghost use Rattle.expr_tree.specs.View.{boxed_view};
ghost use Rattle.plans.specs.Plans.{part};
ghost use Rattle.node_meaning.specs.Envs.{Locals, at};
ghost use Rattle.node_meaning.specs.Needs.{Setting};
ghost use Rattle.node_meaning.specs.Strict.{collected};
ghost use Rattle.node_meaning.specs.Tasks.{expr_in};
ghost use Rattle.eval_data.specs.Parts.{here_of, parts_of};
ghost use Rattle.eval_data.specs.Steps.{code_of, frame_then, then_of};

use eval_data::{Collecting, Frame, Here, Parts, Step, Then, Use};
use expr_tree::Expr;
use std::alloc::Global;
use vdm_kinds::{OutOfMemory, Place};
use vdm_values::Value;

/// A part, and what is done with what comes of it.
pub(crate) fn part_of<'t>(here: Here<'t>, tree: &'t Box<Expr>, frame: Frame<'t>) -> Step<'t>
    ensures { (setting : Setting) (locals : Locals) → code_of setting locals result ≡ part (expr_in (at (here_of here.entry) locals) (boxed_view tree.now)) (frame_then setting frame.entry) }
{
    Step::Part(here, tree, frame)
}

/// The first of several parts, behind values that came, and what is done with the values of all.
pub(crate) fn collecting_part<'t>(
    alloc: Global,
    here: Here<'t>,
    place: Place,
    first: &'t Box<Expr>,
    rest: Parts<'t>,
    done: Vec<Value>,
    then: Then<'t>,
) -> Result<Step<'t>, OutOfMemory>
    ensures { IfOk result (λ s. (setting : Setting) (locals : Locals) → code_of setting locals s ≡ collected (here_of here.entry) place (one_expr (boxed_view first.now) (parts_of rest.entry)) done.items (then_of setting then.entry (here_of here.entry) place) locals) }
{
    let collecting = Collecting {
        here,
        place,
        rest,
        done,
        then,
    };
    let collect = Use::Collect(Box::new(alloc, collecting)?);
    Ok(part_of(here, first, Frame::With(collect, place)))
}
