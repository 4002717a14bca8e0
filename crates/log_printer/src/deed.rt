// The text of a deed: a word, and what the deed is about.

ghost use Rattle.std.specs.Prelude.{◌≡◌, ◌++◌, OnOk, codes};
ghost use Rattle.std.specs.String.{string_bytes};
ghost use Rattle.report_texts.specs.Names.{operation_text};
ghost use Rattle.abstract_syntax.specs.Values.{value_trees};
ghost use Rattle.report_texts.specs.Values.{string_text};
ghost use Rattle.report_texts.specs.Log.{answer_text, deed_text, object_text, refused_start, refused_write};
ghost use Rattle.run_journal.specs.declared.deed.Deed.TheVariants as deed;

use crate::member::{push_operation, push_variable};
use crate::place::push_place;
use crate::slots::{push_slots, push_spaced};
use crate::writes::push_writes;
use run_journal::{Deed, HostAnswer, WriteList};
use std::alloc::Global;
use std::fmt::Write;
use value_text::{name_text, push_slot, push_string, push_value, push_values};
use vdm_kinds::{Name, OpRef, OutOfMemory, Place, RunFault, VarRef};
use vdm_names::Names;
use vdm_values::{Slot, SlotList, ValueList};

/// Appends the text of a deed. A refusal may leave a part of it there.
pub(crate) fn push_deed(
    alloc: Global,
    text: &mut String,
    deed: &Deed,
    names: &Names,
) -> Result<(), OutOfMemory>
    ensures { OnOk result (string_bytes text.new ≡ string_bytes text.old ++ deed_text names.now deed.now) }
{
    match deed {
        Deed::Class { class, values } => push_object(alloc, text, "class ", *class, values, names),
        Deed::New { class, values } => push_object(alloc, text, "new ", *class, values, names),
        Deed::Req { op } => push_call(alloc, text, "req ", *op, names),
        Deed::Act { op } => push_call(alloc, text, "act ", *op, names),
        Deed::ActFault { op, inner } => push_act_fault(alloc, text, *op, *inner, names),
        Deed::Fin { op } => push_call(alloc, text, "fin ", *op, names),
        Deed::Read { var, value } => push_read(alloc, text, *var, value, names),
        Deed::Write { writes, refused } => push_write(alloc, text, writes, *refused, names),
        Deed::Start { refused } => push_start(text, *refused),
        Deed::Print { text: printed } => push_print(alloc, text, printed),
        Deed::Host { op, args, answer } => push_host(alloc, text, *op, args, answer, names),
        Deed::Time { ticks } => Ok(write!(text, "time {ticks}")?),
        Deed::End { value } => push_end(alloc, text, value, names),
        Deed::Fail { fault, exit, place } => push_fail(alloc, text, (*fault, *place), exit, names),
        Deed::Tick => Ok(text.push_str("tick")?),
        Deed::Release { k } => Ok(write!(text, "release {k}")?),
    }
}

// as `new C [0, ?]`
fn push_object(
    alloc: Global,
    text: &mut String,
    word: &str,
    class: Name,
    values: &SlotList,
    names: &Names,
) -> Result<(), OutOfMemory>
    ensures { OnOk result (string_bytes text.new ≡ string_bytes text.old ++ (word.now ++ object_text names.now class values.now)) }
{
    let class = name_text(names, class);
    write!(text, "{word}{class} [")?;
    push_slots(alloc, text, values.as_slice(), names)?;
    text.push(']')?;
    Ok(())
}

// as ``req C`op/1``
fn push_call(
    alloc: Global,
    text: &mut String,
    word: &str,
    op: OpRef,
    names: &Names,
) -> Result<(), OutOfMemory>
    ensures { OnOk result (string_bytes text.new ≡ string_bytes text.old ++ (word.now ++ operation_text names.now op)) }
{
    text.push_str(word)?;
    push_operation(alloc, text, op, names)
}

// as ``act-fault C`op/1 110``
fn push_act_fault(
    alloc: Global,
    text: &mut String,
    op: OpRef,
    inner: u32,
    names: &Names,
) -> Result<(), OutOfMemory>
    ensures { OnOk result (string_bytes text.new ≡ string_bytes text.old ++ deed_text names.now (deed.ActFault op inner)) }
{
    push_call(alloc, text, "act-fault ", op, names)?;
    Ok(write!(text, " {inner}")?)
}

// as ``read C`x = 0``
fn push_read(
    alloc: Global,
    text: &mut String,
    var: VarRef,
    value: &Slot,
    names: &Names,
) -> Result<(), OutOfMemory>
    ensures { OnOk result (string_bytes text.new ≡ string_bytes text.old ++ deed_text names.now (deed.Read var value.now)) }
{
    text.push_str("read ")?;
    push_variable(text, var, names)?;
    text.push_str(" = ")?;
    push_slot(alloc, text, value, names)
}

// as ``write C`x = 1, C`y = 2``, and ` refused 105` behind it where it is refused
fn push_write(
    alloc: Global,
    text: &mut String,
    writes: &WriteList,
    refused: bool,
    names: &Names,
) -> Result<(), OutOfMemory>
    ensures { OnOk result (string_bytes text.new ≡ string_bytes text.old ++ deed_text names.now (deed.Write writes.now refused)) }
{
    text.push_str("write ")?;
    push_writes(alloc, text, writes.as_slice(), names)?;
    text.push_str(refused_write(refused))?;
    Ok(())
}

// an instance invariant refuses, whose fault has the number 105
fn refused_write(refused: bool) -> &'static str
    ensures { result.now ≡ refused_write refused }
{
    if refused { " refused 105" } else { "" }
}

// as `start`, and `start refused 120` where the object was started before
fn push_start(text: &mut String, refused: bool) -> Result<(), OutOfMemory>
    ensures { OnOk result (string_bytes text.new ≡ string_bytes text.old ++ (codes "start" ++ refused_start refused)) }
{
    text.push_str("start")?;
    text.push_str(refused_start(refused))?;
    Ok(())
}

fn refused_start(refused: bool) -> &'static str
    ensures { result.now ≡ refused_start refused }
{
    if refused { " refused 120" } else { "" }
}

// as `print "in\n"`
fn push_print(alloc: Global, text: &mut String, printed: &ValueList) -> Result<(), OutOfMemory>
    ensures { OnOk result (string_bytes text.new
        ≡ string_bytes text.old ++ (codes "print " ++ string_text (value_trees printed.now))) }
{
    text.push_str("print ")?;
    push_string(alloc, text, printed.as_slice())
}

// as ``host C`op/1 (65) = 'A'``, and ``host C`op/1 (65) refused`` where the function does not take these arguments
fn push_host(
    alloc: Global,
    text: &mut String,
    op: OpRef,
    args: &ValueList,
    answer: &HostAnswer,
    names: &Names,
) -> Result<(), OutOfMemory>
    ensures { OnOk result (string_bytes text.new
        ≡ string_bytes text.old ++ deed_text names.now (deed.Host op args.now answer.now)) }
{
    push_call(alloc, text, "host ", op, names)?;
    text.push_str(" (")?;
    push_values(alloc, text, args.as_slice(), names)?;
    text.push_str(")")?;
    push_answer(alloc, text, answer, names)
}

fn push_answer(
    alloc: Global,
    text: &mut String,
    answer: &HostAnswer,
    names: &Names,
) -> Result<(), OutOfMemory>
    ensures { OnOk result (string_bytes text.new ≡ string_bytes text.old ++ answer_text names.now answer.now) }
{
    match answer {
        HostAnswer::Given(value) => {
            text.push_str(" = ")?;
            push_value(alloc, text, value, names)
        }
        HostAnswer::Refused => Ok(text.push_str(" refused")?),
    }
}

// as `end 3`, and `end` without a value
fn push_end(
    alloc: Global,
    text: &mut String,
    value: &Slot,
    names: &Names,
) -> Result<(), OutOfMemory>
    ensures { OnOk result (string_bytes text.new ≡ string_bytes text.old ++ deed_text names.now (deed.End value.now)) }
{
    text.push_str("end")?;
    push_spaced(alloc, text, value, names)
}

// as `fail 101 expr 1:41`, and `fail 113 <F> spec 6:36` with the value that left the thread
fn push_fail(
    alloc: Global,
    text: &mut String,
    what: (RunFault, Place),
    exit: &Slot,
    names: &Names,
) -> Result<(), OutOfMemory>
    ensures { OnOk result (string_bytes text.new
        ≡ string_bytes text.old ++ deed_text names.now (deed.Fail what.0 exit.now what.1)) }
{
    let number = what.0.number();
    write!(text, "fail {number}")?;
    push_spaced(alloc, text, exit, names)?;
    text.push(' ')?;
    push_place(alloc, text, what.1)
}
