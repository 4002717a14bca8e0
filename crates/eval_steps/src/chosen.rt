// Nodes that bind by definitions, or choose.

ghost use Rattle.std.specs.Prelude.{◌≡◌, IfOk};
ghost use Rattle.node_meaning.specs.Envs.{Locals};
ghost use Rattle.node_meaning.specs.Expressions.{expr_plan};
ghost use Rattle.node_meaning.specs.Needs.{Asker, Setting};
ghost use Rattle.expr_tree.specs.View.{view_of};
ghost use Rattle.expr_topics.specs.Topics.{topic_of};
ghost use Rattle.spec_table.specs.Tables.{table_spec};
ghost use Rattle.eval_data.specs.Parts.{here_of};
ghost use Rattle.eval_data.specs.Steps.{code_of};
ghost use Rattle.eval_steps.specs.Settings.{set};
ghost use Rattle.expr_topics.specs.declared.topic.Topic.TheVariants.{Choices};

use eval_data::{Chooser, Here, Step};
use expr_tree::Expr;
use match_steps::{cases, def_in, let_in};
use search_steps::choosing_one;
use std::alloc::Global;
use value_steps::if_else;
use vdm_kinds::{Name, OutOfMemory, RunFault};
use vdm_values::Slot;

/// What such a node does.
pub(crate) fn chosen<'t>(
    alloc: Global,
    locals: &Vec<(Name, Slot)>,
    here: Here<'t>,
    tree: &'t Expr,
) -> Result<Step<'t>, OutOfMemory>
    requires { topic_of (view_of tree.now) ≡ Choices }
    ensures { IfOk result (λ s. (setting : Setting) → code_of setting locals.now.items s ≡ expr_plan setting (here_of here.entry) locals.now.items (view_of tree.now)) }
{
    match tree {
        Expr::LetIn(definitions, body, place) => {
            Ok(let_in(here, locals, definitions.as_slice(), body, *place))
        }
        Expr::DefIn(pattern, value, body, place) => {
            Ok(def_in(here, locals, pattern, value, body, *place))
        }
        Expr::IfElse(condition, then, elseifs, otherwise, place) => {
            let elseifs = elseifs.as_slice();
            Ok(if_else(here, condition, then, elseifs, otherwise, *place))
        }
        Expr::Cases(subject, alternatives, others, place) => {
            let alternatives = alternatives.as_slice();
            Ok(cases(here, locals, subject, alternatives, others, *place))
        }
        Expr::Iota(bind, condition, place) => {
            choosing_one(alloc, here, *place, bind, Chooser::TheOne(condition))
        }
        _ => Ok(Step::Fail(RunFault::Undefined, tree.place())),
    }
}
