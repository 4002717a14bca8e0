// Parts that stand in boxes.

ghost use Rattle.std.specs.Prelude.{◌≡◌};
ghost use Rattle.expr_tree.specs.View.{boxed_view};
ghost use Rattle.plans.specs.Plans.{part};
ghost use Rattle.node_meaning.specs.Envs.{Locals, at};
ghost use Rattle.node_meaning.specs.Needs.{Setting};
ghost use Rattle.node_meaning.specs.Tasks.{expr_in};
ghost use Rattle.eval_data.specs.Parts.{here_of};
ghost use Rattle.eval_data.specs.Steps.{code_of, frame_then};

use eval_data::{Frame, Here, Step};
use expr_tree::Expr;

/// The part, and what is done with what comes of it.
pub(crate) fn boxed_part<'t>(here: Here<'t>, tree: &'t Box<Expr>, frame: Frame<'t>) -> Step<'t>
    ensures { (setting : Setting) (locals : Locals) → code_of setting locals result ≡ part (expr_in (at (here_of here.entry) locals) (boxed_view tree.now)) (frame_then setting frame.entry) }
{
    Step::Part(here, tree, frame)
}
