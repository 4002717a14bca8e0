// How a part of the test of a value is entered.

ghost use Rattle.std.specs.Prelude.{◌≡◌, ◌<◌, ◌≤◌, List, IfOk};
ghost use Rattle.run_journal.specs.declared.answer.Answer.{Answer as AnswerView};
ghost use Rattle.spec_table.specs.Tables.{table_spec};
ghost use Rattle.step_data.specs.Actions.{busy, height};
ghost use Rattle.step_data.specs.Declarations.{surrounded};
ghost use Rattle.thread_stack.specs.Standing.{both, load, stands, stands_with};

use crate::acting::{planned, unentered};
use crate::stack::Stack;
use eval_data::{Here, TestPart};
use plans::take_unit;
use std::alloc::Global;
use step_data::{Action, FitPart, Level, Pending, Task, Waiting};
use vdm_kinds::OutOfMemory;
use vdm_tree::Expr;

impl<'t> Stack<'t> {
    /// Enters a part of the test of a value in an expression.
    pub fn test(
        &mut self,
        alloc: Global,
        test: Box<TestPart<'t>>,
    ) -> Result<Action<'t>, OutOfMemory>
        ensures same { IfOk result (λ a. (answers : List AnswerView) → stands_with self.new a answers ≡ stands_with self.old (Action.Test test.entry) answers) }
        ensures low { IfOk result (λ a. load self.new.levels.items self.new.fuel (height a) ≤ load self.old.levels.items self.old.fuel 1) }
        ensures falls { IfOk result (λ a. load self.new.levels.items self.new.fuel (busy a) < load self.old.levels.items self.old.fuel 1) }
        ensures table { self.new.table ≡ self.old.table }
    {
        let mut test = test;
        let inner = Pending {
            waiting: Waiting::Expr(test.take_inner()),
        };
        let outer = Pending {
            waiting: Waiting::Expr(test.take_outer()),
        };
        self.nested(alloc, test.here, test.tree, inner, outer)
    }

    /// Enters a part of the test of a value elsewhere.
    pub fn fit(&mut self, alloc: Global, fit: Box<FitPart<'t>>) -> Result<Action<'t>, OutOfMemory>
        ensures same { IfOk result (λ a. (answers : List AnswerView) → stands_with self.new a answers ≡ stands_with self.old (Action.Fit fit.entry) answers) }
        ensures low { IfOk result (λ a. load self.new.levels.items self.new.fuel (height a) ≤ load self.old.levels.items self.old.fuel 1) }
        ensures falls { IfOk result (λ a. load self.new.levels.items self.new.fuel (busy a) < load self.old.levels.items self.old.fuel 1) }
        ensures table { self.new.table ≡ self.old.table }
    {
        let mut fit = fit;
        let inner = Pending {
            waiting: Waiting::Expr(fit.take_inner()),
        };
        let outer = fit.take_outer();
        self.nested(alloc, fit.here, fit.tree, inner, outer)
    }

    /// Enters a part of the test of a value, behind which two levels wait.
    fn nested(
        &mut self,
        alloc: Global,
        here: Here<'t>,
        tree: &'t Expr,
        inner: Pending<'t>,
        outer: Pending<'t>,
    ) -> Result<Action<'t>, OutOfMemory>
        ensures same { IfOk result (λ a. (answers : List AnswerView) → stands_with self.new a answers ≡ stands (table_spec self.old.table.now) self.old.levels.items self.old.fuel (surrounded self.old.around (both (table_spec self.old.table.now) self.old.locals.items here.entry tree.entry inner.entry outer.entry)) answers) }
        ensures low { IfOk result (λ a. load self.new.levels.items self.new.fuel (height a) ≤ load self.old.levels.items self.old.fuel 1) }
        ensures falls { IfOk result (λ a. load self.new.levels.items self.new.fuel (busy a) < load self.old.levels.items self.old.fuel 1) }
        ensures table { self.new.table ≡ self.old.table }
    {
        let task = Task::Expr(here, tree);
        match take_unit(self.fuel) {
            Some(left) => {
                self.fuel = left;
                let first = self.around.share()?;
                let second = self.around.share()?;
                self.levels.push(Level {
                    around: first,
                    waiting: outer,
                })?;
                self.levels.push(Level {
                    around: second,
                    waiting: inner,
                })?;
                planned(alloc, self.table, &mut self.locals, &mut self.around, task)
            }
            None => Ok(unentered(&mut self.around, task)),
        }
    }
}
