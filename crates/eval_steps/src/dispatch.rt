// What each node of an expression does, by its topic.

ghost use Rattle.std.specs.Prelude.{◌≡◌, IfOk};
ghost use Rattle.node_meaning.specs.Expressions.{expr_plan};
ghost use Rattle.node_meaning.specs.Needs.{Asker};
ghost use Rattle.expr_tree.specs.View.{view_of};
ghost use Rattle.spec_table.specs.Tables.{table_spec};
ghost use Rattle.eval_data.specs.Parts.{here_of};
ghost use Rattle.eval_data.specs.Steps.{code_of};
ghost use Rattle.eval_steps.specs.Settings.{set};

use crate::called::called;
use crate::chosen::chosen;
use crate::named::named;
use crate::parts::parts;
use crate::plain::plain;
use crate::searched::searched;
use crate::selected::selected;
use crate::tested::tested;
use eval_data::{Here, Step};
use expr_topics::{Topic, expr_topic};
use expr_tree::Expr;
use spec_table::ClassTable;
use std::alloc::Global;
use vdm_kinds::{Name, OutOfMemory};
use vdm_values::Slot;

/// What a node of an expression does.
pub fn expression<'t>(
    alloc: Global,
    table: &'t ClassTable,
    locals: &mut Vec<(Name, Slot)>,
    here: Here<'t>,
    tree: &'t Expr,
) -> Result<Step<'t>, OutOfMemory>
    ensures { IfOk result (λ s. (asker : Asker) → code_of (set table.now asker) locals.new.items s ≡ expr_plan (set table.now asker) (here_of here.entry) locals.old.items (view_of tree.now)) }
{
    match expr_topic(tree) {
        Topic::Names => named(alloc, table, locals, here, tree),
        Topic::Plain => plain(alloc, here, tree),
        Topic::Calls => called(alloc, table, locals, here, tree),
        Topic::Selections => Ok(selected(here, tree)),
        Topic::Tests => tested(alloc, here, tree),
        Topic::Inside => searched(alloc, table, locals, here, tree),
        Topic::Choices => chosen(alloc, locals, here, tree),
        Topic::Parts => parts(alloc, here, tree),
    }
}
