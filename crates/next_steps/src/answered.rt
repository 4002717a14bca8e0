// What is done with the answer to an asking.

ghost use Rattle.std.specs.Prelude.{◌≡◌, ◌<◌, ◌≤◌, ◌+◌, length, pos, IfOk};
ghost use Rattle.abstract_syntax.specs.Classes.{SpecTree};
ghost use Rattle.node_meaning.specs.Envs.{Locals};
ghost use Rattle.node_meaning.specs.Needs.{slot_in as slot_of};
ghost use Rattle.node_meaning.specs.Tasks.{noted};
ghost use Rattle.plans.specs.Plans.{ask};
ghost use Rattle.run_journal.specs.declared.question.Question.TheVariants.{Act};
ghost use Rattle.stmt_meaning.specs.Calls.{begins};
ghost use Rattle.stmt_meaning.specs.Questions.{time_answered};
ghost use Rattle.abstract_syntax.specs.Values.{number};
ghost use Rattle.spec_table.specs.Tables.{table_spec};
ghost use Rattle.step_data.specs.Actions.{action_code, answered_of, weight, height};
ghost use Rattle.step_data.specs.Callings.{calling_of, olds_of};

use call_steps::{activated, before_read};
use eval_data::Flow;
use goal_steps::{old_read, written};
use main_steps::class_made;
use object_steps::created;
use run_journal::Answer;
use spec_table::ClassTable;
use std::alloc::Global;
use step_data::{Action, Asking, Calling};
use vdm_kinds::{Name, OutOfMemory, Place, RunFault};
use vdm_values::{Node, Slot, Value};

/// What is done with the answer.
pub fn answered_of<'t>(
    alloc: Global,
    table: &'t ClassTable,
    locals: &mut Vec<(Name, Slot)>,
    asking: Asking<'t>,
    answer: Answer,
) -> Result<Action<'t>, OutOfMemory>
    ensures same { IfOk result (λ a. action_code (table_spec table.now) locals.new.items a ≡ answered_of (table_spec table.now) locals.old.items asking.entry answer) }
    ensures falls { IfOk result (λ a. height a < weight asking.entry) }
{
    // A part that is not used is bound, so that it is dropped in its own arm: that is cheaper to prove.
    match asking {
        Asking::Class(making) => class_made(alloc, table, locals, making),
        Asking::Request(call) => Ok(requested(call, answer)),
        Asking::Activation(call) => Ok(activated(call, answer)),
        Asking::Before(call, old, next) => {
            before_read(alloc, table, locals, call, old, next, answer)
        }
        Asking::Finish(_, _, flow) => Ok(Action::Finish(flow)),
        Asking::Read(_, _) => Ok(Action::Finish(Flow::Gave(slot_in(answer)))),
        Asking::Write(_, _, _value, place) => Ok(written(place, answer)),
        Asking::WriteTogether(_, _pairs, place) => Ok(written(place, answer)),
        Asking::Old(assigning, _, _) => old_read(alloc, table, locals, assigning, answer),
        Asking::New(object, _slots) => created(alloc, table, locals, object, answer),
        Asking::Print(_values) => Ok(Action::Finish(Flow::Gave(Slot::Unset))),
        Asking::Time(place) => Ok(time_told(place, answer)),
        Asking::End(slot) => Ok(Action::Finish(Flow::Gave(slot))),
    }
}

/// What is done once a request was answered: the call asks for its activation.
fn requested<'t>(call: Box<Calling<'t>>, answer: Answer) -> Action<'t>
    ensures same { (spec : SpecTree) (locals : Locals) → action_code spec locals result ≡ ask (noted (Act call.entry.value.me call.entry.value.op)) (begins spec (calling_of call.entry.value) (olds_of call.entry.value) locals) }
    ensures falls { height result ≤ 5 + length call.entry.value.olds.items }
{
    drop(answer);
    Action::Ask(Asking::Activation(call))
}

/// The number of ticks that was told is the value of the node at the place.
fn time_told<'t>(place: Place, answer: Answer) -> Action<'t>
    ensures same { (spec : SpecTree) (locals : Locals) → action_code spec locals result ≡ time_answered place locals answer }
    ensures falls { height result ≤ 1 }
{
    match answer {
        Answer::Ticks(told) => Action::Finish(Flow::Gave(Slot::Held(whole_number(told)))),
        _ => Action::Fail(RunFault::Undefined, place),
    }
}

/// A whole number as a value.
fn whole_number(n: u64) -> Value
    ensures { result ≡ number (pos n) }
{
    Value::new(Node::Int(n as i128))
}

/// The slot in an answer.
fn slot_in(answer: Answer) -> Slot
    ensures { result ≡ slot_of answer }
{
    match answer {
        Answer::Slot(slot) => slot,
        _ => Slot::Unset,
    }
}
