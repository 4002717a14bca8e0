// Whether two entries, deeds or questions are the same.

ghost use Rattle.std.specs.Prelude.{◌≡◌, ◌↔◌, IsTrue};

use run_journal::{Deed, Entry, Question};
use vdm_kinds::{OpRef, RunFault};

/// Whether both are the same entry.
#[tactic(auto, using(abstract_syntax::specs::SameBy::sameness))]
pub fn same_entry(entry: &Entry, other: &Entry) -> bool
    ensures { IsTrue result ↔ (entry.now ≡ other.now) }
{
    entry.thread.is(other.thread)
        && entry.object == other.object
        && same_deed(&entry.deed, &other.deed)
}

/// Whether both are the same.
#[tactic(auto, using(abstract_syntax::specs::SameBy::sameness))]
pub fn same_deed(deed: &Deed, other: &Deed) -> bool
    ensures { IsTrue result ↔ (deed.now ≡ other.now) }
{
    match deed {
        Deed::Class { class, values } =>
            matches!(other, Deed::Class { class: c, values: v } if class == c && values == v),
        Deed::New { class, values } =>
            matches!(other, Deed::New { class: c, values: v } if class == c && values == v),
        Deed::Req { op } => matches!(other, Deed::Req { op: o } if same_op(op, o)),
        Deed::Act { op } => matches!(other, Deed::Act { op: o } if same_op(op, o)),
        Deed::ActFault { op, inner } =>
            matches!(other, Deed::ActFault { op: o, inner: i } if same_op(op, o) && inner == i),
        Deed::Fin { op } => matches!(other, Deed::Fin { op: o } if same_op(op, o)),
        Deed::Read { var, value } =>
            matches!(other, Deed::Read { var: v, value: held } if var == v && value == held),
        Deed::Write { writes, refused } =>
            matches!(other, Deed::Write { writes: w, refused: r } if writes == w && refused == r),
        Deed::Start { refused } => matches!(other, Deed::Start { refused: r } if refused == r),
        Deed::Print { text } => matches!(other, Deed::Print { text: t } if text == t),
        Deed::Host { op, args, answer } =>
            matches!(other, Deed::Host { op: o, args: a, answer: given } if same_op(op, o) && args == a && answer == given),
        Deed::Time { ticks } => matches!(other, Deed::Time { ticks: t } if ticks == t),
        Deed::End { value } => matches!(other, Deed::End { value: v } if value == v),
        Deed::Fail { fault, exit, place } =>
            matches!(other, Deed::Fail { fault: f, exit: e, place: p } if same_fault(fault, f) && exit == e && place == p),
        Deed::Tick => matches!(other, Deed::Tick),
        Deed::Release { k } => matches!(other, Deed::Release { k: j } if k == j),
    }
}

/// Whether both are the same.
#[tactic(auto, using(abstract_syntax::specs::SameBy::sameness))]
pub fn same_question(question: &Question, other: &Question) -> bool
    ensures { IsTrue result ↔ (question.now ≡ other.now) }
{
    match question {
        Question::Class {
            object,
            class,
            values,
        } =>
            matches!(other, Question::Class { object: o, class: c, values: v } if object == o && class == c && values == v),
        Question::New { class, values } =>
            matches!(other, Question::New { class: c, values: v } if class == c && values == v),
        Question::Req { object, op } =>
            matches!(other, Question::Req { object: o, op: p } if object == o && same_op(op, p)),
        Question::Act { object, op } =>
            matches!(other, Question::Act { object: o, op: p } if object == o && same_op(op, p)),
        Question::Fin { object, op } =>
            matches!(other, Question::Fin { object: o, op: p } if object == o && same_op(op, p)),
        Question::Read { object, var } =>
            matches!(other, Question::Read { object: o, var: v } if object == o && var == v),
        Question::Write { object, writes } =>
            matches!(other, Question::Write { object: o, writes: w } if object == o && writes == w),
        Question::Start { object } => matches!(other, Question::Start { object: o } if object == o),
        Question::Print { text } => matches!(other, Question::Print { text: t } if text == t),
        Question::Host { object, op, args } =>
            matches!(other, Question::Host { object: o, op: p, args: a } if object == o && same_op(op, p) && args == a),
        Question::Time => matches!(other, Question::Time),
        Question::End { value } => matches!(other, Question::End { value: v } if value == v),
        Question::Fail { fault, exit, place } =>
            matches!(other, Question::Fail { fault: f, exit: e, place: p } if same_fault(fault, f) && exit == e && place == p),
        Question::Tick => matches!(other, Question::Tick),
        Question::Release { object, k } =>
            matches!(other, Question::Release { object: o, k: j } if object == o && k == j),
    }
}

/// Whether both are the same operation.
fn same_op(op: &OpRef, other: &OpRef) -> bool
    ensures { IsTrue result ↔ (op.now ≡ other.now) }
{
    op == other
}

/// Whether both are the same fault.
fn same_fault(fault: &RunFault, other: &RunFault) -> bool
    ensures { IsTrue result ↔ (fault.now ≡ other.now) }
{
    fault == other
}
