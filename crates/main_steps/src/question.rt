// The question that an asking is.

ghost use Rattle.std.specs.Prelude.{◌≡◌, [], ◌∷◌, IfOk};
ghost use Rattle.step_data.specs.Actions.{question_of};

use run_journal::{Question, Write, WriteList};
use std::alloc::Global;
use step_data::{Asking, ClassMaking};
use value_text::printed_text;
use vdm_kinds::{OutOfMemory, VarRef};
use vdm_names::Names;
use vdm_values::{Slot, SlotList, Value};

/// The question that is asked, where what is printed is written over the names of the texts.
pub fn question_of(
    alloc: Global,
    names: &Names,
    asking: &Asking<'_>,
) -> Result<Question, OutOfMemory>
    ensures { IfOk result (λ q. q ≡ question_of names.now asking.now) }
{
    match asking {
        Asking::Class(making) => class_question(alloc, making),
        Asking::Request(call) => Ok(Question::Req {
            object: call.me,
            op: call.op,
        }),
        Asking::Activation(call) => Ok(Question::Act {
            object: call.me,
            op: call.op,
        }),
        Asking::Before(_, old, _) => Ok(Question::Read {
            object: old.object,
            var: old.var,
        }),
        Asking::Finish(me, op, _) => Ok(Question::Fin {
            object: *me,
            op: *op,
        }),
        Asking::Read(me, var) => Ok(Question::Read {
            object: *me,
            var: *var,
        }),
        Asking::Write(me, var, value, _) => write_question(alloc, *me, *var, value),
        Asking::WriteTogether(me, pairs, _) => together_question(alloc, *me, pairs.as_slice()),
        Asking::Old(_, me, var) => Ok(Question::Read {
            object: *me,
            var: *var,
        }),
        Asking::New(creating, slots) => Ok(Question::New {
            class: creating.class,
            values: slots.copy(alloc)?,
        }),
        Asking::Print(values) => Ok(Question::Print {
            text: printed_text(alloc, values.as_slice(), names)?,
        }),
        Asking::Time(_) => Ok(Question::Time),
        Asking::End(slot) => Ok(Question::End {
            value: slot.copy(alloc)?,
        }),
    }
}

/// The question for a class object.
fn class_question(alloc: Global, making: &ClassMaking<'_>) -> Result<Question, OutOfMemory>
    ensures { IfOk result (λ q. q ≡ Question.Class making.now.object making.now.class making.now.slots.items) }
{
    let values = copied(alloc, making.slots.as_slice())?;
    Ok(Question::Class {
        object: making.object,
        class: making.class,
        values,
    })
}

/// A list of its own of the same slots.
fn copied(alloc: Global, slots: &[Slot]) -> Result<SlotList, OutOfMemory>
    ensures { IfOk result (λ list. list ≡ slots.now) }
{
    let mut copies = Vec::new(alloc);
    for slot in slots {
        copies.push(slot.copy(alloc)?)?;
    }
    Ok(SlotList::from_vec(copies))
}

/// The question to write one variable.
fn write_question(
    alloc: Global,
    object: u32,
    var: VarRef,
    value: &Value,
) -> Result<Question, OutOfMemory>
    ensures { IfOk result (λ q. q ≡ Question.Write object (record { var = var; value = value.now } ∷ [])) }
{
    let mut writes = Vec::new(alloc);
    writes.push(Write {
        var,
        value: value.copy(alloc)?,
    })?;
    Ok(Question::Write {
        object,
        writes: WriteList::from_vec(writes),
    })
}

/// The question to write several variables together.
fn together_question(alloc: Global, object: u32, pairs: &[Write]) -> Result<Question, OutOfMemory>
    ensures { IfOk result (λ q. q ≡ Question.Write object pairs.now) }
{
    let mut writes = Vec::new(alloc);
    for pair in pairs {
        writes.push(Write {
            var: pair.var,
            value: pair.value.copy(alloc)?,
        })?;
    }
    Ok(Question::Write {
        object,
        writes: WriteList::from_vec(writes),
    })
}
