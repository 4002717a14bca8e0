// Literals, words that may stand anywhere, and brackets.

ghost use Rattle.std.specs.Prelude.{◌≡◌, IfOk};
ghost use Rattle.node_meaning.specs.Envs.{Locals};
ghost use Rattle.node_meaning.specs.Expressions.{expr_plan};
ghost use Rattle.node_meaning.specs.Needs.{Asker, Setting};
ghost use Rattle.expr_tree.specs.View.{view_of};
ghost use Rattle.expr_topics.specs.Topics.{topic_of};
ghost use Rattle.spec_table.specs.Tables.{table_spec};
ghost use Rattle.eval_data.specs.Parts.{here_of};
ghost use Rattle.eval_data.specs.Steps.{code_of};
ghost use Rattle.eval_steps.specs.Settings.{set};
ghost use Rattle.expr_topics.specs.declared.topic.Topic.TheVariants.{Plain};
ghost use Rattle.abstract_syntax.specs.Values.{map_of, no_pairs};

use eval_data::{Here, Step};
use expr_tree::Expr;
use std::alloc::Global;
use value_steps::literal;
use vdm_kinds::{OutOfMemory, RunFault};
use vdm_values::{Node, PairList, Value};

/// What such a node does; what stands in brackets is evaluated in its stead.
pub(crate) fn plain<'t>(
    alloc: Global,
    here: Here<'t>,
    tree: &'t Expr,
) -> Result<Step<'t>, OutOfMemory>
    requires { topic_of (view_of tree.now) ≡ Plain }
    ensures { IfOk result (λ s. (setting : Setting) (locals : Locals) → code_of setting locals s ≡ expr_plan setting (here_of here.entry) locals (view_of tree.now)) }
{
    match tree {
        Expr::Literal(written, place) => literal(alloc, written, *place),
        Expr::Bracketed(inner, _) => Ok(Step::Become(here, inner)),
        Expr::EmptyMap(_) => Ok(Step::value(empty_map(alloc))),
        _ => Ok(Step::Fail(RunFault::Undefined, tree.place())),
    }
}

/// The map of no pairs.
fn empty_map(alloc: Global) -> Value
    ensures { result ≡ map_of no_pairs }
{
    Value::new(Node::Map(Vec::new(alloc)))
}
