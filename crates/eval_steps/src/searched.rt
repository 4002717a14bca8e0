// Nodes that go through the choices of binds.

ghost use Rattle.std.specs.Prelude.{◌≡◌, IfOk};
ghost use Rattle.node_meaning.specs.Envs.{Locals};
ghost use Rattle.node_meaning.specs.Expressions.{expr_plan};
ghost use Rattle.node_meaning.specs.Needs.{Asker, Setting};
ghost use Rattle.expr_tree.specs.View.{view_of};
ghost use Rattle.expr_topics.specs.Topics.{topic_of};
ghost use Rattle.spec_table.specs.Tables.{table_spec};
ghost use Rattle.eval_data.specs.Parts.{here_of};
ghost use Rattle.eval_data.specs.Steps.{code_of};
ghost use Rattle.eval_steps.specs.Settings.{set};
ghost use Rattle.expr_topics.specs.declared.topic.Topic.TheVariants.{Inside};

use eval_data::{Chooser, Elements, Here, Step, Strict};
use expr_tree::Expr;
use search_steps::{choosing_in, choosing_one, choosing_several};
use spec_table::ClassTable;
use std::alloc::Global;
use vdm_kinds::{Name, OutOfMemory, RunFault};
use vdm_values::Slot;

/// What such a node does.
pub(crate) fn searched<'t>(
    alloc: Global,
    table: &'t ClassTable,
    locals: &mut Vec<(Name, Slot)>,
    here: Here<'t>,
    tree: &'t Expr,
) -> Result<Step<'t>, OutOfMemory>
    requires { topic_of (view_of tree.now) ≡ Inside }
    ensures { IfOk result (λ s. (asker : Asker) → code_of (set table.now asker) locals.new.items s ≡ expr_plan (set table.now asker) (here_of here.entry) locals.old.items (view_of tree.now)) }
{
    match tree {
        Expr::SetComprehension(element, binds, condition, place) => {
            let chooser = Chooser::Collects(Strict::Set, Elements::One(element), condition);
            choosing_several(
                alloc,
                table,
                locals,
                here,
                *place,
                binds.as_slice(),
                chooser,
            )
        }
        Expr::MapComprehension(key, value, binds, condition, place) => {
            let chooser = Chooser::Collects(Strict::Map, Elements::Two(key, value), condition);
            choosing_several(
                alloc,
                table,
                locals,
                here,
                *place,
                binds.as_slice(),
                chooser,
            )
        }
        Expr::SequenceComprehension(item, pattern, set, condition, place) => {
            let chooser = Chooser::Collects(Strict::Sequence, Elements::One(item), condition);
            choosing_in(alloc, here, *place, pattern, set, chooser)
        }
        Expr::LetBe(bind, condition, body, place) => {
            choosing_one(
                alloc,
                here,
                *place,
                bind,
                Chooser::TakesFirst(condition, body),
            )
        }
        Expr::ForAll(binds, condition, place) => {
            let chooser = Chooser::ForEach(condition);
            choosing_several(
                alloc,
                table,
                locals,
                here,
                *place,
                binds.as_slice(),
                chooser,
            )
        }
        Expr::Exists(binds, condition, place) => {
            let chooser = Chooser::ForSome(condition);
            choosing_several(
                alloc,
                table,
                locals,
                here,
                *place,
                binds.as_slice(),
                chooser,
            )
        }
        Expr::ExistsOne(bind, condition, place) => {
            choosing_one(alloc, here, *place, bind, Chooser::ForOne(condition))
        }
        _ => Ok(Step::Fail(RunFault::Undefined, tree.place())),
    }
}
