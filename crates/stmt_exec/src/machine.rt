// The machine of a thread.

ghost use Rattle.std.specs.Prelude.{◌≡◌, ◌≢◌, ◌<◌, ◌↔◌, List, [], ◌∷◌, IfOk, OnOk, OnErr, IsErr, IsTrue};
ghost use Rattle.run_journal.specs.declared.answer.Answer.{Answer as AnswerView};
ghost use Rattle.vdm_meaning.specs.Main.{asks, over as is_over, main_code};
ghost use Rattle.expr_tree.specs.View.{view_of};
ghost use Rattle.spec_table.specs.Tables.{table_spec};
ghost use Rattle.stmt_exec.specs.Standing.{rest, rank, IsSpent};

use crate::answering::rest_after;
use crate::rest::Rest;
use crate::running::run;
use main_steps::{make_class_objects, question_of};
use run_journal::{Answer, Question};
use spec_table::ClassTable;
use std::alloc::Global;
use std::mem;
use thread_stack::Stack;
use vdm_kinds::{OutOfMemory, Place, RunFault};
use vdm_names::Names;
use vdm_tree::Expr;
use vdm_values::{Slot, Value};

/// A thread that stands where its code stands after the answers that it was given.
pub struct Machine<'t> {
    // Those of the texts that run: what is printed is written with them.
    names: &'t Names,
    stack: Stack<'t>,
    rest: Rest<'t>,
}

// A derived drop would be proved again in each crate that drops a machine.
impl<'t> Drop for Machine<'t> {
    fn drop(self) {
        let Machine {
            names: _,
            stack: _,
            rest: _,
        } = self;
    }
}

impl<'t> Machine<'t> {
    /// The machine of main, which makes the class objects, evaluates the expression and ends, with this many units, over the names of
    /// the texts.
    pub fn main(
        alloc: Global,
        names: &'t Names,
        table: &'t ClassTable,
        tree: &'t Expr,
        steps: u64,
    ) -> Result<Machine<'t>, OutOfMemory>
        ensures { IfOk result (λ m. (answers : List AnswerView) → rest m answers ≡ main_code names.now (table_spec table.now) (view_of tree.now) steps answers) }
    {
        let mut stack = Stack::new(alloc, table, steps);
        let classes = table.classes();
        let action = make_class_objects(alloc, table, &mut stack.locals, 0, classes, tree)?;
        let rest = run(alloc, &mut stack, action)?;
        Ok(Machine { names, stack, rest })
    }

    /// The question that the thread needs answered, the same until it is. Where memory is refused the machine is spent.
    pub fn next(&mut self, alloc: Global) -> Result<Question, OutOfMemory>
        requires { rest self.old [] ≢ is_over }
        ensures asks { IfOk result (λ q. rest self.old [] ≡ asks q) }
        ensures kept { OnOk result (self.new ≡ self.old) }
        ensures spent { IsSpent self.old → IsErr result }
        ensures err { OnErr result (IsSpent self.new) }
    {
        match self.question(alloc) {
            Ok(question) => Ok(question),
            Err(OutOfMemory) => {
                self.set_rest(Rest::Spent);
                Err(OutOfMemory)
            }
        }
    }

    /// Goes on with the answer to the question. Where memory is refused the machine is spent.
    pub fn answer(&mut self, alloc: Global, answer: Answer) -> Result<(), OutOfMemory>
        requires { rest self.old [] ≢ is_over }
        ensures goes_on { OnOk result ((answers : List AnswerView) → rest self.new answers ≡ rest self.old (answer ∷ answers)) }
        ensures falls { OnOk result (rank self.new < rank self.old) }
        ensures spent { IsSpent self.old → IsErr result }
        ensures err { OnErr result (IsSpent self.new) }
    {
        // Want of memory on the way leaves the machine spent.
        let rest = mem::replace(&mut self.rest, Rest::Spent);
        let rest = rest_after(alloc, &mut self.stack, rest, answer)?;
        self.set_rest(rest);
        Ok(())
    }

    fn set_rest(&mut self, rest: Rest<'t>)
        ensures { self.new ≡ record self.old { rest = rest.entry } }
    {
        self.rest = rest;
    }

    /// Whether the thread is over: its end or its failure was answered.
    pub fn over(&self) -> bool
        ensures { IsTrue result ↔ (rest self.now [] ≡ is_over) }
    {
        matches!(self.rest, Rest::Over)
    }

    /// The question that the thread needs answered.
    fn question(&self, alloc: Global) -> Result<Question, OutOfMemory>
        requires { rest self.now [] ≢ is_over }
        ensures asks { IfOk result (λ q. rest self.now [] ≡ asks q) }
        ensures spent { IsSpent self.now → IsErr result }
    {
        match &self.rest {
            Rest::Asks(asking) => question_of(alloc, self.names, asking),
            Rest::Fails(fault, place) => Ok(failure(*fault, Slot::Unset, *place)),
            Rest::Exits(value, place) => exit(alloc, value, *place),
            Rest::Over | Rest::Spent => Err(OutOfMemory),
        }
    }
}

fn failure(fault: RunFault, exit: Slot, place: Place) -> Question
    ensures { result ≡ Question.Fail fault exit place }
{
    Question::Fail { fault, exit, place }
}

fn exit(alloc: Global, value: &Value, place: Place) -> Result<Question, OutOfMemory>
    ensures { IfOk result (λ q. q ≡ Question.Fail RunFault.UncaughtExit (Slot.Held value.now) place) }
{
    let value = value.copy(alloc)?;
    Ok(failure(RunFault::UncaughtExit, Slot::Held(value), place))
}
