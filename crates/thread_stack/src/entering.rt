// How a node is entered.

ghost use Rattle.std.specs.Prelude.{◌≡◌, ◌<◌, ◌≤◌, ◌+◌, List, IfOk, length};
ghost use Rattle.run_journal.specs.declared.answer.Answer.{Answer as AnswerView};
ghost use Rattle.spec_table.specs.Tables.{table_spec};
ghost use Rattle.eval_data.specs.Parts.{flow_of};
ghost use Rattle.step_data.specs.Actions.{action_code, busy, height, level_then, most, waiting_weight};
ghost use Rattle.step_data.specs.Declarations.{surrounded};
ghost use Rattle.thread_stack.specs.Standing.{load, stands_with};

use crate::acting::{behind, planned, unentered};
use crate::stack::Stack;
use eval_data::{After, Flow, Here, Need};
use flow_steps::sequence;
use next_steps::handed::call_steps::begun;
use next_steps::handed::object_steps::needed;
use plans::take_unit;
use std::alloc::Global;
use std::mem;
use step_data::{Action, Around, BlockRest, Calling, Level, Pending, Round, Task, Waiting};
use vdm_kinds::{OutOfMemory, Place};

impl<'t> Stack<'t> {
    /// Enters a node, which takes a unit or is spent; and lets what waits for it wait.
    pub fn enter(
        &mut self,
        alloc: Global,
        task: Task<'t>,
        waiting: Pending<'t>,
    ) -> Result<Action<'t>, OutOfMemory>
        ensures same { IfOk result (λ a. (answers : List AnswerView) → stands_with self.new a answers ≡ stands_with self.old (Action.Part task.entry waiting.entry) answers) }
        ensures low { IfOk result (λ a. load self.new.levels.items self.new.fuel (height a) ≤ load self.old.levels.items self.old.fuel 1) }
        ensures falls { IfOk result (λ a. load self.new.levels.items self.new.fuel (busy a) < load self.old.levels.items self.old.fuel 1) }
        ensures table { self.new.table ≡ self.old.table }
    {
        match take_unit(self.fuel) {
            Some(left) => {
                self.fuel = left;
                let around = self.around.share()?;
                self.levels.push(Level { around, waiting })?;
                planned(alloc, self.table, &mut self.locals, &mut self.around, task)
            }
            None => Ok(unentered(&mut self.around, task)),
        }
    }

    /// Enters a node in the stead of another.
    pub fn begin(&mut self, alloc: Global, task: Task<'t>) -> Result<Action<'t>, OutOfMemory>
        ensures same { IfOk result (λ a. (answers : List AnswerView) → stands_with self.new a answers ≡ stands_with self.old (Action.Become task.entry) answers) }
        ensures low { IfOk result (λ a. load self.new.levels.items self.new.fuel (height a) ≤ load self.old.levels.items self.old.fuel 1) }
        ensures falls { IfOk result (λ a. load self.new.levels.items self.new.fuel (busy a) < load self.old.levels.items self.old.fuel 1) }
        ensures table { self.new.table ≡ self.old.table }
    {
        match take_unit(self.fuel) {
            Some(left) => {
                self.fuel = left;
                planned(alloc, self.table, &mut self.locals, &mut self.around, task)
            }
            None => Ok(unentered(&mut self.around, task)),
        }
    }

    /// Begins a round of a loop: what is done behind its first node waits.
    pub fn round(
        &mut self,
        alloc: Global,
        here: Here<'t>,
        round: Round<'t>,
    ) -> Result<Action<'t>, OutOfMemory>
        ensures same { IfOk result (λ a. (answers : List AnswerView) → stands_with self.new a answers ≡ stands_with self.old (Action.Round here.entry round.entry) answers) }
        ensures low { IfOk result (λ a. load self.new.levels.items self.new.fuel (height a) ≤ load self.old.levels.items self.old.fuel 1) }
        ensures falls { IfOk result (λ a. load self.new.levels.items self.new.fuel (busy a) < load self.old.levels.items self.old.fuel 1) }
        ensures table { self.new.table ≡ self.old.table }
    {
        let task = round.task(here);
        let waiting = Pending {
            waiting: Waiting::Round(here, round),
        };
        match take_unit(self.fuel) {
            Some(left) => {
                self.fuel = left;
                let declared = self.around.declared.share()?;
                let nest = here.nest;
                let around = Around { nest, declared };
                self.levels.push(Level { around, waiting })?;
                planned(alloc, self.table, &mut self.locals, &mut self.around, task)
            }
            None => Ok(unentered(&mut self.around, task)),
        }
    }

    /// The statements of a block begin, among its local variables.
    pub fn block(&mut self, alloc: Global, rest: BlockRest<'t>) -> Result<Action<'t>, OutOfMemory>
        ensures same { IfOk result (λ a. (answers : List AnswerView) → stands_with self.new a answers ≡ stands_with self.old (Action.Block rest.entry) answers) }
        ensures low { IfOk result (λ a. load self.new.levels.items self.new.fuel (height a) ≤ load self.old.levels.items self.old.fuel 2) }
        ensures falls { IfOk result (λ a. load self.new.levels.items self.new.fuel (busy a) < load self.old.levels.items self.old.fuel 2) }
        ensures table { self.new.table ≡ self.old.table }
    {
        let declared = self.around.declared.further(alloc, rest.dcls)?;
        self.around.declared = declared;
        Ok(sequence(&mut self.locals, rest.here, rest.statements, rest.count))
    }

    /// Goes after a need, and lets the node that has it wait.
    pub fn need(
        &mut self,
        alloc: Global,
        need: Need,
        place: Place,
        after: After<'t>,
    ) -> Result<Action<'t>, OutOfMemory>
        ensures same { IfOk result (λ a. (answers : List AnswerView) → stands_with self.new a answers ≡ stands_with self.old (Action.Need need place after.entry) answers) }
        ensures low { IfOk result (λ a. load self.new.levels.items self.new.fuel (height a) ≤ load self.old.levels.items self.old.fuel (9 + most)) }
        ensures falls { IfOk result (λ a. load self.new.levels.items self.new.fuel (busy a) < load self.old.levels.items self.old.fuel 4) }
        ensures table { self.new.table ≡ self.old.table }
    {
        let around = self.around.share()?;
        let waiting = Pending {
            waiting: Waiting::After(after, place),
        };
        self.levels.push(Level { around, waiting })?;
        needed(alloc, self.table, &mut self.locals, need, place)
    }

    /// Begins a call, with the locals put aside: the node that calls waits for them.
    pub fn call(&mut self, alloc: Global, call: Box<Calling<'t>>) -> Result<Action<'t>, OutOfMemory>
        ensures same { IfOk result (λ a. (answers : List AnswerView) → stands_with self.new a answers ≡ stands_with self.old (Action.Begin call.entry) answers) }
        ensures low { IfOk result (λ a. load self.new.levels.items self.new.fuel (height a) ≤ load self.old.levels.items self.old.fuel (4 + length call.entry.value.olds.items)) }
        ensures falls { IfOk result (λ a. load self.new.levels.items self.new.fuel (busy a) < load self.old.levels.items self.old.fuel 4) }
        ensures table { self.new.table ≡ self.old.table }
    {
        let around = self.around.share()?;
        let saved = mem::replace(&mut self.locals, Vec::new(alloc));
        let waiting = Pending {
            waiting: Waiting::Back(saved),
        };
        self.levels.push(Level { around, waiting })?;
        begun(alloc, self.table, &mut self.locals, call)
    }

    /// Goes on with what came, on the level that waited for it and has been taken off.
    pub fn go_on(
        &mut self,
        alloc: Global,
        level: Level<'t>,
        flow: Flow,
    ) -> Result<Action<'t>, OutOfMemory>
        ensures same { IfOk result (λ a. surrounded self.new.around (action_code (table_spec self.old.table.now) self.new.locals.items a) ≡ level_then (table_spec self.old.table.now) level.entry (flow_of flow self.old.locals.items)) }
        ensures busy { IfOk result (λ a. busy a ≤ waiting_weight level.entry.waiting.waiting) }
        ensures falls { IfOk result (λ a. height a < waiting_weight level.entry.waiting.waiting) }
        ensures table { self.new.table ≡ self.old.table }
        ensures levels { self.new.levels ≡ self.old.levels }
        ensures fuel { self.new.fuel ≡ self.old.fuel }
    {
        let around = &mut self.around;
        behind(alloc, self.table, &mut self.locals, around, level, flow)
    }
}
