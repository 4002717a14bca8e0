// The evaluation of one expression.

ghost use Rattle.std.specs.Prelude.{◌≡◌, ℕ, ◌<◌, List, IfOk, OnOk, OnErr, IsErr, MatchOption};
ghost use Rattle.run_journal.specs.declared.answer.Answer.{Answer};
ghost use Rattle.node_meaning.specs.Envs.{Locals};
ghost use Rattle.expr_tree.specs.View.{view_of};
ghost use Rattle.spec_table.specs.Tables.{table_spec};
ghost use Rattle.eval_data.specs.Parts.{flow_of};
ghost use Rattle.expr_eval.specs.Evaluations.{alone, evaluation};
ghost use Rattle.expr_eval.specs.Turns.{rest, behind, rests, stands_with, IsReady, IsWaiting, IsSpent, IsNoStep, Turned, Ends};
ghost use Rattle.expr_eval.specs.Weights.{load, weight, reached_weight, rank};

use crate::doing::Doing;
use crate::env::Env;
use crate::turn::Turn;
use eval_data::{After, Flow, Here, Level, Need, Nest, Step, TestPart};
use eval_steps::handed::name_steps::after_need;
use expr_tree::Expr;
use plans::take_unit;
use spec_table::ClassTable;
use std::alloc::Global;
use std::mem;
use vdm_kinds::{Name, OutOfMemory, Place, RunFault};
use vdm_values::Slot;

/// What an evaluation does next.
enum Next<'t> {
    Step(Doing<'t>),
    /// It waits for the slot that answers the need of the node at the place, inside of these tests of types.
    Waits(Nest, After<'t>, Place),
    /// It gave a value or a fault.
    Over,
    /// It met want of memory.
    Spent,
}

impl<'t> Next<'t> {
    /// The step, taken out, if there is one.
    fn into_step(self) -> Option<Doing<'t>>
        ensures { MatchOption result (IsNoStep self.entry) (λ doing. self.entry ≡ Next.Step doing) }
    {
        match self {
            Next::Step(doing) => Some(doing),
            Next::Waits(_, _, _) => None,
            Next::Over => None,
            Next::Spent => None,
        }
    }
}

// By hand, so that whoever drops it calls this, and does not prove again the dropping of all that is in a step.
impl<'t> Drop for Next<'t> {
    fn drop(self) {
        match self {
            Next::Step(_doing) => {}
            Next::Waits(_, _, _) => {}
            Next::Over => {}
            Next::Spent => {}
        }
    }
}

/// Where an evaluation can't go on by itself.
#[derive(Drop)]
enum Reached<'t> {
    /// The node at the place needs this, inside of these tests of types.
    Needs(Need, Nest, Place, After<'t>),
    Fails(RunFault, Place),
    /// This came of the whole expression.
    Gives(Flow),
}

/// The evaluation of one expression, which stands where its meaning stands after the slots that it was given.
///
/// It goes on by `advance` until it needs something, and by `give` with what it needed. Where memory is refused it is spent, and
/// then each further call is refused too.
pub struct Eval<'t> {
    table: &'t ClassTable,
    /// What waits for what comes of the parts that are entered, the outermost first.
    frames: Vec<Level<'t>>,
    /// The names that are bound where the evaluation stands, the newest last.
    locals: Vec<(Name, Slot)>,
    /// The place of the whole expression.
    place: Place,
    next: Next<'t>,
}

impl<'t> Drop for Eval<'t> {
    fn drop(self) {
        let Eval {
            table: _,
            frames: _,
            locals: _,
            place: _,
            next: _,
        } = self;
    }
}

impl<'t> Eval<'t> {
    /// The evaluation of the expression from its beginning, inside of so many tests of invariants of types.
    pub fn new(
        alloc: Global,
        table: &'t ClassTable,
        tree: &'t Expr,
        env: &'t Env,
        depth: u32,
    ) -> Result<Eval<'t>, OutOfMemory>
        ensures { IfOk result (λ e. ((answers : List Answer) (units : ℕ) → rest e answers units ≡ evaluation (table_spec table.now) env.now depth (view_of tree.now) answers units) × IsReady e) }
    {
        let locals = env.first_locals(alloc)?;
        let here = env.here(depth);
        Ok(Eval {
            table,
            frames: Vec::new(alloc),
            locals,
            place: tree.place(),
            next: Next::Step(Doing {
                nest: here.nest,
                step: Step::Become(here, tree),
            }),
        })
    }

    /// Goes on until something is needed, or the expression is evaluated. Each node that is entered takes a unit.
    pub fn advance(&mut self, alloc: Global, fuel: &mut u64) -> Result<Turn, OutOfMemory>
        requires { IsReady self.old }
        ensures turned { IfOk result (λ turn. Turned turn (λ answers. rest self.old answers fuel.old) self.new fuel.new) }
        ensures falls { OnOk result (rank self.new fuel.new < rank self.old fuel.old) }
        ensures spent { IsSpent self.old → IsErr result }
        ensures err { OnErr result (IsSpent self.new) }
    {
        // Want of memory on the way leaves the evaluation spent.
        match mem::replace(&mut self.next, Next::Spent).into_step() {
            Some(doing) => self.go_on(alloc, fuel, doing),
            None => Err(OutOfMemory),
        }
    }

    /// Takes the slot that answers the need.
    pub fn give(&mut self, alloc: Global, slot: Slot) -> Result<(), OutOfMemory>
        requires { IsWaiting self.old }
        ensures goes_on { OnOk result ((answers : List Answer) (units : ℕ) → rest self.new answers units ≡ behind self.old slot answers units) }
        ensures ready { OnOk result (IsReady self.new) }
        ensures falls { OnOk result ((units : ℕ) → rank self.new units < rank self.old units) }
        ensures spent { IsSpent self.old → IsErr result }
        ensures err { OnErr result (IsSpent self.new) }
    {
        match &self.next {
            Next::Waits(nest, after, place) => {
                let nest = *nest;
                match after_need(alloc, *after, *place, Flow::Gave(slot)) {
                    Ok(step) => {
                        self.set_next(Next::Step(Doing { nest, step }));
                        Ok(())
                    }
                    Err(OutOfMemory) => {
                        self.set_next(Next::Spent);
                        Err(OutOfMemory)
                    }
                }
            }
            Next::Step(_) | Next::Over | Next::Spent => Err(OutOfMemory),
        }
    }

    /// Does the step and all that follow it, and says how far that is.
    fn go_on(
        &mut self,
        alloc: Global,
        fuel: &mut u64,
        doing: Doing<'t>,
    ) -> Result<Turn, OutOfMemory>
        ensures turned { IfOk result (λ turn. Turned turn (λ answers. stands_with self.old doing.entry.nest doing.entry.step answers fuel.old) self.new fuel.new) }
        ensures falls { OnOk result (rank self.new fuel.new < load self.old.frames.items fuel.old (weight doing.entry.step)) }
        ensures err { OnErr result (self.new.next ≡ self.old.next) }
    {
        let reached = self.run(alloc, fuel, doing)?;
        Ok(self.turn(reached))
    }

    /// Does one step after another until the evaluation can't go on by itself, and says where.
    fn run(
        &mut self,
        alloc: Global,
        fuel: &mut u64,
        doing: Doing<'t>,
    ) -> Result<Reached<'t>, OutOfMemory>
        ensures same { IfOk result (λ r. (answers : List Answer) → rests self.new r answers fuel.new ≡ stands_with self.old doing.entry.nest doing.entry.step answers fuel.old) }
        ensures falls { IfOk result (λ r. load self.new.frames.items fuel.new (reached_weight r) < load self.old.frames.items fuel.old (weight doing.entry.step)) }
        ensures next { self.new.next ≡ self.old.next }
    {
        let mut doing = doing;
        'steps: loop {
            let Doing { nest, step } = doing;
            doing = match step {
                Step::Finish(flow) => match self.frames.pop() {
                    Some(level) => Doing::of_level(
                        alloc,
                        self.table,
                        &mut self.locals,
                        level,
                        flow,
                    )?,
                    None => return Ok(Reached::Gives(flow)),
                },
                Step::Part(here, tree, frame) => self.enter(
                    alloc,
                    fuel,
                    here,
                    tree,
                    Level { nest, frame },
                )?,
                Step::Test(test) => self.test(nest, test)?,
                Step::Become(here, tree) => self.begin(alloc, fuel, here, tree)?,
                Step::Need(need, place, after) => return Ok(Reached::Needs(
                    need, nest, place, after,
                )),
                Step::Fail(fault, place) => return Ok(Reached::Fails(fault, nest.place(place))),
            };
        }
    }

    /// Enters a node, which takes a unit or is spent; and lets the level wait for what comes of it.
    fn enter(
        &mut self,
        alloc: Global,
        fuel: &mut u64,
        here: Here<'t>,
        tree: &'t Expr,
        level: Level<'t>,
    ) -> Result<Doing<'t>, OutOfMemory>
        ensures same { IfOk result (λ d. (answers : List Answer) → stands_with self.new d.nest d.step answers fuel.new ≡ stands_with self.old level.entry.nest (Step.Part here.entry tree.entry level.entry.frame) answers fuel.old) }
        ensures falls { IfOk result (λ d. load self.new.frames.items fuel.new (weight d.step) < load self.old.frames.items fuel.old 2) }
        ensures table { self.new.table ≡ self.old.table }
        ensures place { self.new.place ≡ self.old.place }
        ensures next { self.new.next ≡ self.old.next }
    {
        match take_unit(*fuel) {
            Some(left) => {
                *fuel = left;
                self.frames.push(level)?;
                Doing::of_node(alloc, self.table, &mut self.locals, here, tree)
            }
            None => Ok(Doing::spent(here, tree)),
        }
    }

    /// Lets the outer frame wait for what comes of the test of a value; the part of that test is next.
    fn test(&mut self, nest: Nest, test: Box<TestPart<'t>>) -> Result<Doing<'t>, OutOfMemory>
        ensures same { IfOk result (λ d. (answers : List Answer) (units : ℕ) → stands_with self.new d.nest d.step answers units ≡ stands_with self.old nest (Step.Test test.entry) answers units) }
        ensures falls { IfOk result (λ d. (units : ℕ) → load self.new.frames.items units (weight d.step) < load self.old.frames.items units 6) }
        ensures table { self.new.table ≡ self.old.table }
        ensures place { self.new.place ≡ self.old.place }
        ensures next { self.new.next ≡ self.old.next }
    {
        let mut test = test;
        let frame = test.take_outer();
        self.frames.push(Level { nest, frame })?;
        let inner = test.take_inner();
        Ok(Doing {
            nest,
            step: Step::Part(test.here, test.tree, inner),
        })
    }

    /// Enters a node in the stead of another.
    fn begin(
        &mut self,
        alloc: Global,
        fuel: &mut u64,
        here: Here<'t>,
        tree: &'t Expr,
    ) -> Result<Doing<'t>, OutOfMemory>
        ensures same { IfOk result (λ d. (answers : List Answer) → stands_with self.new d.nest d.step answers fuel.new ≡ stands_with self.old here.entry.nest (Step.Become here.entry tree.entry) answers fuel.old) }
        ensures falls { IfOk result (λ d. load self.new.frames.items fuel.new (weight d.step) < load self.old.frames.items fuel.old 2) }
        ensures table { self.new.table ≡ self.old.table }
        ensures place { self.new.place ≡ self.old.place }
        ensures next { self.new.next ≡ self.old.next }
    {
        match take_unit(*fuel) {
            Some(left) => {
                *fuel = left;
                Doing::of_node(alloc, self.table, &mut self.locals, here, tree)
            }
            None => Ok(Doing::spent(here, tree)),
        }
    }

    /// Says how far the evaluation came, and waits for the slot or is over.
    fn turn(&mut self, reached: Reached<'t>) -> Turn
        ensures turned { (units : ℕ) → Turned result (λ answers. rests self.old reached.entry answers units) self.new units }
        ensures low { (units : ℕ) → rank self.new units ≡ load self.old.frames.items units (reached_weight reached.entry) }
    {
        match reached {
            Reached::Needs(need, nest, place, after) => {
                self.set_next(Next::Waits(nest, after, place));
                Turn::Needs(need)
            }
            Reached::Fails(fault, place) => {
                self.set_next(Next::Over);
                Turn::Fault(fault, place)
            }
            Reached::Gives(flow) => {
                self.set_next(Next::Over);
                ending(self.place, flow)
            }
        }
    }

    fn set_next(&mut self, next: Next<'t>)
        ensures { self.new ≡ record self.old { next = next.entry } }
    {
        self.next = next;
    }
}

/// What comes of the whole expression, which stands at the place: its value, or a fault.
fn ending(place: Place, flow: Flow) -> Turn
    ensures { (locals : Locals) → Ends result (alone place (flow_of flow locals)) locals }
{
    match flow {
        Flow::Gave(Slot::Held(value)) => Turn::Value(value),
        Flow::Gave(Slot::Unset) => Turn::Fault(RunFault::Undefined, place),
        Flow::Next => Turn::Fault(RunFault::Undefined, place),
        Flow::Returned(_slot) => Turn::Fault(RunFault::Undefined, place),
        Flow::Exited(_value, from) => Turn::Fault(RunFault::UncaughtExit, from),
    }
}
