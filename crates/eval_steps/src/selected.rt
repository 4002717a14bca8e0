// Selections of members.

ghost use Rattle.std.specs.Prelude.{◌≡◌};
ghost use Rattle.node_meaning.specs.Envs.{Locals};
ghost use Rattle.node_meaning.specs.Expressions.{expr_plan};
ghost use Rattle.node_meaning.specs.Needs.{Setting};
ghost use Rattle.node_meaning.specs.Tasks.{evaluated};
ghost use Rattle.expr_tree.specs.View.{boxed_view, view_of};
ghost use Rattle.expr_topics.specs.Topics.{topic_of};
ghost use Rattle.eval_data.specs.Parts.{here_of};
ghost use Rattle.eval_data.specs.Steps.{code_of, read_selected};
ghost use Rattle.expr_topics.specs.declared.topic.Topic.TheVariants.{Selections};

use eval_data::{Frame, Here, Selected, Step, Use};
use expr_tree::Expr;
use vdm_kinds::{Place, RunFault};

/// What such a node does.
pub(crate) fn selected<'t>(here: Here<'t>, tree: &'t Expr) -> Step<'t>
    requires { topic_of (view_of tree.now) ≡ Selections }
    ensures { (setting : Setting) (locals : Locals) → code_of setting locals result ≡ expr_plan setting (here_of here.entry) locals (view_of tree.now) }
{
    match tree {
        Expr::Select(target, name, _, place) => {
            member(here, target, Selected::Member(*name), *place)
        }
        Expr::SelectOfClass(target, class, _, name, _, place) => {
            member(here, target, Selected::OfClass(*class, *name), *place)
        }
        _ => Step::Fail(RunFault::Undefined, tree.place()),
    }
}

/// What is selected of the value of an expression.
fn member<'t>(here: Here<'t>, target: &'t Box<Expr>, what: Selected, place: Place) -> Step<'t>
    ensures { (setting : Setting) (locals : Locals) → code_of setting locals result ≡ evaluated (here_of here.entry) locals (boxed_view target.now) place (read_selected setting place what) }
{
    Step::Part(here, target, Frame::With(Use::Select(what), place))
}
