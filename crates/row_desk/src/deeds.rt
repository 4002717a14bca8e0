// Deeds, entries and questions in requests.

use crate::desk::Desk;
use crate::threads::thread_by;
use row_words::{Line, run_fault};
use run_journal::{Answer, Deed, Entry, HostAnswer, Question, WriteList};
use vdm_kinds::RunFault;
use vdm_values::{SlotList, ValueList};

impl Desk {
    /// The deed that stands next.
    pub(crate) fn deed_by(&mut self, line: &mut Line<'_>) -> Deed {
        match line.word() {
            "class" => Deed::Class {
                class: self.name(line),
                values: SlotList::from_vec(self.last_slots(line)),
            },
            "new" => Deed::New {
                class: self.name(line),
                values: SlotList::from_vec(self.last_slots(line)),
            },
            "read" => Deed::Read {
                var: self.variable(line),
                value: self.slot(line),
            },
            "write" => self.writing(line),
            "end" => Deed::End {
                value: self.slot(line),
            },
            "fail" => self.failure(line),
            "print" => Deed::Print {
                text: ValueList::from_vec(self.last_values(line)),
            },
            "host" => self.host_call(line),
            word => self.call_or_tick(word, line),
        }
    }

    fn writing(&mut self, line: &mut Line<'_>) -> Deed {
        let count = line.count();
        let writes = WriteList::from_vec(line.last_of(&mut self.writes, count));
        let refused = line.number() == 1;
        Deed::Write { writes, refused }
    }

    fn failure(&mut self, line: &mut Line<'_>) -> Deed {
        let number = line.number();
        let fault = line.found(run_fault(number), RunFault::Overflow);
        let part = line.part();
        let place = line.spot(part);
        let exit = self.slot(line);
        Deed::Fail { fault, exit, place }
    }

    fn host_call(&mut self, line: &mut Line<'_>) -> Deed {
        let op = self.operation(line);
        let answer = host_answer(self.last_answer(line), line);
        let args = ValueList::from_vec(self.last_values(line));
        Deed::Host { op, args, answer }
    }

    // A deed that takes nothing from the desk.
    fn call_or_tick(&self, word: &str, line: &mut Line<'_>) -> Deed {
        match word {
            "req" => Deed::Req {
                op: self.operation(line),
            },
            "act" => Deed::Act {
                op: self.operation(line),
            },
            "fin" => Deed::Fin {
                op: self.operation(line),
            },
            "act-fault" => Deed::ActFault {
                op: self.operation(line),
                inner: line.number(),
            },
            "start" => Deed::Start {
                refused: line.number() == 1,
            },
            "time" => Deed::Time {
                ticks: line.whole(),
            },
            "release" => Deed::Release { k: line.number() },
            "tick" => Deed::Tick,
            _ => {
                line.refuse();
                Deed::Tick
            }
        }
    }

    /// Enters the last deed.
    pub(crate) fn enter(&mut self, line: &mut Line<'_>) {
        let thread = thread_by(line);
        let object = line.number();
        let deed = self.deed(line);
        if self.entries.push(Entry::new(thread, object, deed)).is_err() {
            line.fall_short();
        }
    }

    /// Asks what the last deed answers.
    pub(crate) fn ask(&mut self, line: &mut Line<'_>) {
        let object = line.number();
        let deed = self.deed(line);
        line.put(&mut self.questions, question_of(object, deed));
    }
}

fn host_answer(answer: Answer, line: &mut Line<'_>) -> HostAnswer {
    match answer {
        Answer::Host(answer) => answer,
        _ => {
            line.refuse();
            HostAnswer::Refused
        }
    }
}

// The question that a deed at the object answers.
fn question_of(object: u32, deed: Deed) -> Question {
    match deed {
        Deed::Class { class, values } => Question::Class {
            object,
            class,
            values,
        },
        Deed::New { class, values } => Question::New { class, values },
        Deed::Req { op } => Question::Req { object, op },
        Deed::Act { op } | Deed::ActFault { op, .. } => Question::Act { object, op },
        Deed::Fin { op } => Question::Fin { object, op },
        Deed::Read { var, .. } => Question::Read { object, var },
        Deed::Write { writes, .. } => Question::Write { object, writes },
        Deed::Start { .. } => Question::Start { object },
        Deed::Print { text } => Question::Print { text },
        Deed::Host { op, args, .. } => Question::Host { object, op, args },
        Deed::Time { .. } => Question::Time,
        Deed::End { value } => Question::End { value },
        Deed::Fail { fault, exit, place } => Question::Fail { fault, exit, place },
        Deed::Tick => Question::Tick,
        Deed::Release { k } => Question::Release { object, k },
    }
}
