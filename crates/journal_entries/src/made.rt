// The entry that a question and its answer make.

ghost use Rattle.std.specs.Prelude.{◌≡◌};
ghost use Rattle.run_journal.specs.Made.{made};

use run_journal::{Answer, Deed, Entry, HostAnswer, Question, Thread};
use vdm_values::Slot;

/// The entry of a thread for its question and the answer. None where the answer does not fit the question.
pub fn entry_made(thread: Thread, question: Question, answer: Answer) -> Option<Entry>
    ensures { result ≡ made thread question answer }
{
    match answer {
        Answer::Done => done(thread, question),
        Answer::Object(object) => new_object(thread, question, object),
        Answer::Slot(value) => read(thread, question, value),
        Answer::Refused => refused(thread, question),
        Answer::Inner(inner) => act_fault(thread, question, inner),
        Answer::Host(answer) => host(thread, question, answer),
        Answer::Ticks(ticks) => time(thread, question, ticks),
    }
}

fn done(thread: Thread, question: Question) -> Option<Entry>
    ensures { result ≡ made thread question Answer.Done }
{
    let (object, deed) = match question {
        Question::Class {
            object,
            class,
            values,
        } => (object, Deed::Class { class, values }),
        Question::Req { object, op } => (object, Deed::Req { op }),
        Question::Act { object, op } => (object, Deed::Act { op }),
        Question::Fin { object, op } => (object, Deed::Fin { op }),
        Question::Write { object, writes } => (
            object,
            Deed::Write {
                writes,
                refused: false,
            },
        ),
        Question::Start { object } => (object, Deed::Start { refused: false }),
        Question::Print { text } => (0, Deed::Print { text }),
        Question::End { value } => (thread.own_object(), Deed::End { value }),
        Question::Fail { fault, exit, place } => (
            thread.own_object(),
            Deed::Fail { fault, exit, place },
        ),
        Question::Tick => (0, Deed::Tick),
        Question::Release { object, k } => (object, Deed::Release { k }),
        _ => return None,
    };
    Some(Entry::new(thread, object, deed))
}

fn new_object(thread: Thread, question: Question, object: u32) -> Option<Entry>
    ensures { result ≡ made thread question (Answer.Object object) }
{
    let Question::New { class, values } = question else {
        return None;
    };
    Some(Entry::new(thread, object, Deed::New { class, values }))
}

fn read(thread: Thread, question: Question, value: Slot) -> Option<Entry>
    ensures { result ≡ made thread question (Answer.Slot value) }
{
    let Question::Read { object, var } = question else {
        return None;
    };
    Some(Entry::new(thread, object, Deed::Read { var, value }))
}

fn refused(thread: Thread, question: Question) -> Option<Entry>
    ensures { result ≡ made thread question Answer.Refused }
{
    let (object, deed) = match question {
        Question::Write { object, writes } => (
            object,
            Deed::Write {
                writes,
                refused: true,
            },
        ),
        Question::Start { object } => (object, Deed::Start { refused: true }),
        _ => return None,
    };
    Some(Entry::new(thread, object, deed))
}

fn act_fault(thread: Thread, question: Question, inner: u32) -> Option<Entry>
    ensures { result ≡ made thread question (Answer.Inner inner) }
{
    let Question::Act { object, op } = question else {
        return None;
    };
    Some(Entry::new(thread, object, Deed::ActFault { op, inner }))
}

fn host(thread: Thread, question: Question, answer: HostAnswer) -> Option<Entry>
    ensures { result ≡ made thread question (Answer.Host answer) }
{
    let Question::Host { object, op, args } = question else {
        return None;
    };
    Some(Entry::new(thread, object, Deed::Host { op, args, answer }))
}

fn time(thread: Thread, question: Question, ticks: u64) -> Option<Entry>
    ensures { result ≡ made thread question (Answer.Ticks ticks) }
{
    let Question::Time = question else {
        return None;
    };
    Some(Entry::new(thread, 0, Deed::Time { ticks }))
}
