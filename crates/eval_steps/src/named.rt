// Names and words that may be refused where they stand.

ghost use Rattle.std.specs.Prelude.{◌≡◌, IfOk};
ghost use Rattle.node_meaning.specs.Envs.{Locals};
ghost use Rattle.node_meaning.specs.Expressions.{expr_plan};
ghost use Rattle.node_meaning.specs.Needs.{Asker, Setting};
ghost use Rattle.expr_tree.specs.View.{view_of};
ghost use Rattle.expr_topics.specs.Topics.{topic_of};
ghost use Rattle.spec_table.specs.Tables.{table_spec};
ghost use Rattle.eval_data.specs.Parts.{here_of};
ghost use Rattle.eval_data.specs.Steps.{code_of};
ghost use Rattle.eval_steps.specs.Settings.{set};
ghost use Rattle.expr_topics.specs.declared.topic.Topic.TheVariants.{Names};

use eval_data::{Here, Step};
use expr_tree::Expr;
use name_steps::{name, old_value, qualified, result_value, self_value, time_told};
use spec_table::ClassTable;
use std::alloc::Global;
use vdm_kinds::{Name, OutOfMemory, RunFault};
use vdm_values::Slot;

/// What such a node does; so far counters have no meaning.
pub(crate) fn named<'t>(
    alloc: Global,
    table: &'t ClassTable,
    locals: &mut Vec<(Name, Slot)>,
    here: Here<'t>,
    tree: &'t Expr,
) -> Result<Step<'t>, OutOfMemory>
    requires { topic_of (view_of tree.now) ≡ Names }
    ensures { IfOk result (λ s. (asker : Asker) → code_of (set table.now asker) locals.new.items s ≡ expr_plan (set table.now asker) (here_of here.entry) locals.old.items (view_of tree.now)) }
{
    match tree {
        Expr::Name(found, place) => name(alloc, table, locals, here, *found, *place),
        Expr::Qualified(class, found, _, place) => {
            qualified(alloc, table, locals, here, *class, *found, *place)
        }
        Expr::Old(found, place) => old_value(alloc, locals.as_slice(), *found, *place),
        Expr::SelfObject(place) => Ok(self_value(here, *place)),
        Expr::Time(place) => Ok(time_told(here, *place)),
        Expr::Result(place) => result_value(alloc, locals.as_slice(), *place),
        _ => Ok(Step::Fail(RunFault::Undefined, tree.place())),
    }
}
