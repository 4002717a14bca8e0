// Steps, and where their nodes stand.

ghost use Rattle.std.specs.Prelude.{◌≡◌, IfOk};
ghost use Rattle.expr_tree.specs.View.{view_of};
ghost use Rattle.spec_table.specs.Tables.{table_spec};
ghost use Rattle.plans.specs.Plans.{fail};
ghost use Rattle.node_meaning.specs.Envs.{Locals, at};
ghost use Rattle.node_meaning.specs.Needs.{Setting};
ghost use Rattle.stmt_meaning.specs.TaskPlans.{plan_of};
ghost use Rattle.node_meaning.specs.Tasks.{expr_in, spent};
ghost use Rattle.eval_data.specs.Parts.{here_of, flow_of};
ghost use Rattle.eval_data.specs.Steps.{level_then};
ghost use Rattle.expr_eval.specs.Evaluations.{of_evaluator, placed_code};
ghost use Rattle.expr_eval.specs.Weights.{weight};

use eval_data::{Flow, Here, Level, Nest, Step};
use eval_steps::{expression, then_of};
use expr_tree::Expr;
use spec_table::ClassTable;
use std::alloc::Global;
use vdm_kinds::{Name, OutOfMemory, RunFault};
use vdm_values::Slot;

/// A step, and the tests of types round the node whose plan it is: inside of them its faults stand where the outermost is made.
#[derive(Drop)]
pub(crate) struct Doing<'t> {
    pub nest: Nest,
    pub step: Step<'t>,
}

impl<'t> Doing<'t> {
    /// What a node does that is entered.
    pub(crate) fn of_node(
        alloc: Global,
        table: &'t ClassTable,
        locals: &mut Vec<(Name, Slot)>,
        here: Here<'t>,
        tree: &'t Expr,
    ) -> Result<Doing<'t>, OutOfMemory>
        ensures { IfOk result (λ d. placed_code (of_evaluator (table_spec table.now)) d.nest locals.new.items d.step ≡ plan_of (of_evaluator (table_spec table.now)) (expr_in (at (here_of here.entry) locals.old.items) (view_of tree.now))) }
    {
        let step = expression(alloc, table, locals, here, tree)?;
        Ok(Doing {
            nest: here.nest,
            step,
        })
    }

    /// A node fails that finds no unit left.
    pub(crate) fn spent(here: Here<'t>, tree: &'t Expr) -> Doing<'t>
        ensures fails { (setting : Setting) (locals : Locals) → placed_code setting result.nest locals result.step ≡ fail (spent (expr_in (at (here_of here.entry) locals) (view_of tree.now))) }
        ensures low { weight result.step ≡ 1 }
    {
        Doing {
            nest: here.nest,
            step: Step::Fail(RunFault::StepLimit, tree.place()),
        }
    }

    /// What is done with what came of the part for which the level waits.
    pub(crate) fn of_level(
        alloc: Global,
        table: &'t ClassTable,
        locals: &mut Vec<(Name, Slot)>,
        level: Level<'t>,
        flow: Flow,
    ) -> Result<Doing<'t>, OutOfMemory>
        ensures { IfOk result (λ d. placed_code (of_evaluator (table_spec table.now)) d.nest locals.new.items d.step ≡ level_then (of_evaluator (table_spec table.now)) level.entry (flow_of flow locals.old.items)) }
    {
        let Level { nest, frame } = level;
        let step = then_of(alloc, table, locals, frame, flow)?;
        Ok(Doing { nest, step })
    }
}
