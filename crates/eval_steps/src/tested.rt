// Tests of types and classes.

ghost use Rattle.std.specs.Prelude.{◌≡◌, IfOk};
ghost use Rattle.node_meaning.specs.Envs.{Locals};
ghost use Rattle.node_meaning.specs.Expressions.{expr_plan, fit_value};
ghost use Rattle.node_meaning.specs.Needs.{Setting};
ghost use Rattle.node_meaning.specs.Tasks.{evaluated};
ghost use Rattle.expr_tree.specs.View.{boxed_view, view_of};
ghost use Rattle.expr_topics.specs.Topics.{topic_of};
ghost use Rattle.eval_data.specs.Parts.{asked_type, here_of};
ghost use Rattle.eval_data.specs.Steps.{code_of};
ghost use Rattle.expr_topics.specs.declared.topic.Topic.TheVariants.{Tests};

use eval_data::{AskedType, ClassTest, Frame, Here, Parts, Step, Use};
use expr_tree::Expr;
use std::alloc::Global;
use value_steps::class_tested;
use vdm_kinds::{OutOfMemory, Place, RunFault};

/// What such a node does.
pub(crate) fn tested<'t>(
    alloc: Global,
    here: Here<'t>,
    tree: &'t Expr,
) -> Result<Step<'t>, OutOfMemory>
    requires { topic_of (view_of tree.now) ≡ Tests }
    ensures { IfOk result (λ s. (setting : Setting) (locals : Locals) → code_of setting locals s ≡ expr_plan setting (here_of here.entry) locals (view_of tree.now)) }
{
    match tree {
        Expr::IsOfType(tested, declared, place) => {
            Ok(asked(here, tested, AskedType::Written(declared), *place))
        }
        Expr::IsOfNamed(name, tested, place) => {
            Ok(asked(here, tested, AskedType::Named(*name), *place))
        }
        Expr::IsOfClass(class, _, tested, place) => {
            let test = ClassTest::InClass(*class);
            class_tested(alloc, here, test, *place, tested, Parts::None)
        }
        Expr::IsOfBaseClass(class, _, tested, place) => {
            let test = ClassTest::InBaseClass(*class);
            class_tested(alloc, here, test, *place, tested, Parts::None)
        }
        _ => Ok(Step::Fail(RunFault::Undefined, tree.place())),
    }
}

/// Whether the value of an expression fits a type.
pub(crate) fn asked<'t>(
    here: Here<'t>,
    tested: &'t Box<Expr>,
    wanted: AskedType<'t>,
    place: Place,
) -> Step<'t>
    ensures { (setting : Setting) (locals : Locals) → code_of setting locals result ≡ evaluated (here_of here.entry) locals (boxed_view tested.now) place (fit_value setting.spec (here_of here.entry).nest (here_of here.entry).scope (asked_type place wanted.entry) place) }
{
    let used = Use::Asked(here.nest, here.scope, wanted);
    Step::Part(here, tested, Frame::With(used, place))
}
