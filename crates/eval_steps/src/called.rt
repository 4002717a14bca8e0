// Applications and new objects.

ghost use Rattle.std.specs.Prelude.{◌≡◌, IfOk};
ghost use Rattle.node_meaning.specs.Envs.{Locals};
ghost use Rattle.node_meaning.specs.Wanted.{a_value};
ghost use Rattle.node_meaning.specs.Expressions.{application, created_with, expr_plan};
ghost use Rattle.node_meaning.specs.Needs.{Asker, Setting};
ghost use Rattle.node_meaning.specs.Expressions.{bare_call as bare_call_plan};
ghost use Rattle.expr_tree.specs.View.{boxed_view, expr_trees, view_of, views_of};
ghost use Rattle.expr_topics.specs.Topics.{topic_of};
ghost use Rattle.spec_table.specs.Tables.{table_spec};
ghost use Rattle.eval_data.specs.Parts.{here_of};
ghost use Rattle.eval_data.specs.Steps.{code_of};
ghost use Rattle.eval_steps.specs.Settings.{set};
ghost use Rattle.expr_topics.specs.declared.topic.Topic.TheVariants.{Calls};

use crate::uses::behind;
use eval_data::{Here, Step, Wanted};
use expr_tree::Expr;
use name_steps::{application, created};
use record_steps::make_record;
use spec_table::ClassTable;
use std::alloc::Global;
use vdm_kinds::{Name, OutOfMemory, Place, RunFault};
use vdm_values::Slot;

/// What such a node does, whose value is wanted.
pub(crate) fn called<'t>(
    alloc: Global,
    table: &'t ClassTable,
    locals: &mut Vec<(Name, Slot)>,
    here: Here<'t>,
    tree: &'t Expr,
) -> Result<Step<'t>, OutOfMemory>
    requires { topic_of (view_of tree.now) ≡ Calls }
    ensures { IfOk result (λ s. (asker : Asker) → code_of (set table.now asker) locals.new.items s ≡ expr_plan (set table.now asker) (here_of here.entry) locals.old.items (view_of tree.now)) }
{
    match tree {
        Expr::Apply(head, arguments, place) => {
            applied(alloc, table, locals, here, head, arguments, *place)
        }
        Expr::MakeRecord(name, arguments, place) => {
            make_record(alloc, table, locals, here, *name, arguments, *place)
        }
        Expr::New(class, _, arguments, place) => {
            made(alloc, table, locals, here, *class, arguments, *place)
        }
        _ => Ok(Step::Fail(RunFault::Undefined, tree.place())),
    }
}

/// An application whose value is wanted.
fn applied<'t>(
    alloc: Global,
    table: &'t ClassTable,
    locals: &mut Vec<(Name, Slot)>,
    here: Here<'t>,
    head: &'t Box<Expr>,
    arguments: &'t Vec<Expr>,
    place: Place,
) -> Result<Step<'t>, OutOfMemory>
    ensures { IfOk result (λ s. (asker : Asker) → code_of (set table.now asker) locals.new.items s ≡ application (set table.now asker) (here_of here.entry) (boxed_view head.now) (expr_trees (views_of arguments.now.items)) place a_value locals.old.items) }
{
    let gathered = application(
        alloc,
        table,
        locals.as_slice(),
        here,
        head,
        arguments,
        place,
        Wanted::Value,
    )?;
    behind(alloc, table, locals, gathered)
}

/// A new object.
fn made<'t>(
    alloc: Global,
    table: &'t ClassTable,
    locals: &mut Vec<(Name, Slot)>,
    here: Here<'t>,
    class: Name,
    arguments: &'t Vec<Expr>,
    place: Place,
) -> Result<Step<'t>, OutOfMemory>
    ensures { IfOk result (λ s. (asker : Asker) → code_of (set table.now asker) locals.new.items s ≡ created_with (set table.now asker) (here_of here.entry) (expr_trees (views_of arguments.now.items)) class place locals.old.items) }
{
    let gathered = created(alloc, here, class, arguments, place)?;
    behind(alloc, table, locals, gathered)
}

/// What a call does whose value is not wanted.
pub fn bare_call<'t>(
    alloc: Global,
    table: &'t ClassTable,
    locals: &mut Vec<(Name, Slot)>,
    here: Here<'t>,
    tree: &'t Expr,
) -> Result<Step<'t>, OutOfMemory>
    ensures { IfOk result (λ s. (asker : Asker) → code_of (set table.now asker) locals.new.items s ≡ bare_call_plan (set table.now asker) (here_of here.entry) locals.old.items (view_of tree.now)) }
{
    let gathered = name_steps::bare_call(alloc, table, locals.as_slice(), here, tree)?;
    behind(alloc, table, locals, gathered)
}
