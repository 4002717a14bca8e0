// Which question of a thread may be answered behind a list of entries.

ghost use Rattle.std.specs.Prelude.{◌≡◌, ◌≢◌, ◌<◌, ◌↔◌, [], IsTrue};
ghost use Rattle.run_journal.specs.Parts.{object_part};
ghost use Rattle.spec_table.specs.Tables.{table_spec};
ghost use Rattle.vdm_legal.specs.ClassObjects.{IsClassObject};
ghost use Rattle.vdm_legal.specs.State.{activations, finishes, requests};
ghost use Rattle.plain_state.specs.Readiness.{IsReadyFor};

use crate::calls::{is_active, is_untouched, is_waiting};
use crate::classes::is_class_object;
use run_journal::{Entry, Question, Thread};
use spec_table::ClassTable;
use vdm_kinds::Name;

/// Whether the question of the thread may be answered behind the entries.
pub fn is_ready(table: &ClassTable, before: &[Entry], thread: Thread, question: &Question) -> bool
    ensures { IsTrue result ↔ IsReadyFor (table_spec table.now) thread before.now question.now }
{
    match question {
        Question::Class { object, class, .. } => may_be_made(table, before, *object, *class),
        Question::New { .. } => true,
        Question::Req { object, .. } => is_there(before, *object),
        Question::Write { object, .. } => is_there(before, *object),
        Question::Act { object, op } => may_begin(before, *object, op.name),
        Question::Fin { object, op } => may_end(before, *object, op.name),
        Question::Read { object, .. } => is_there(before, *object),
        Question::Print { .. } => is_there(before, 0),
        Question::Time => is_there(before, 0),
        Question::End { .. } => is_there(before, thread.own_object()),
        Question::Fail { .. } => is_there(before, thread.own_object()),
        _ => false,
    }
}

/// Whether an entry stands on the object.
fn is_there(before: &[Entry], object: u32) -> bool
    ensures { IsTrue result ↔ (object_part object before.now ≢ []) }
{
    !is_untouched(before, object)
}

/// Whether the class object is still to be made.
fn may_be_made(table: &ClassTable, before: &[Entry], object: u32, class: Name) -> bool
    ensures { IsTrue result ↔ ((object_part object before.now ≡ []) × IsClassObject (table_spec table.now) object class) }
{
    is_untouched(before, object) && is_class_object(table, object, class)
}

/// Whether an operation of the name is waiting on the object.
fn may_begin(before: &[Entry], object: u32, name: Name) -> bool
    ensures { IsTrue result ↔ ((object_part object before.now ≢ [])
        × (activations name (object_part object before.now) < requests name (object_part object before.now))) }
{
    is_there(before, object) && is_waiting(before, object, name)
}

/// Whether an operation of the name is active on the object.
fn may_end(before: &[Entry], object: u32, name: Name) -> bool
    ensures { IsTrue result ↔ ((object_part object before.now ≢ [])
        × (finishes name (object_part object before.now) < activations name (object_part object before.now))) }
{
    is_there(before, object) && is_active(before, object, name)
}
