// What the words of a request make.

use row_words::Line;
use run_journal::{Answer, Deed, EntryList, Question, Write};
use std::alloc::Global;
use vdm_kinds::{Name, OpRef, VarRef};
use vdm_names::Names;
use vdm_values::{Node, Slot, Value};

/// What words made so far, the last of each kind last. Names that were declared are known by their index.
#[derive(Drop)]
pub struct Desk {
    pub names: Names,
    pub(crate) known: Vec<Name>,
    pub values: Vec<Value>,
    pub slots: Vec<Slot>,
    pub(crate) writes: Vec<Write>,
    pub deeds: Vec<Deed>,
    pub entries: EntryList,
    pub questions: Vec<Question>,
    pub answers: Vec<Answer>,
}

impl Desk {
    /// Nothing is made so far, and there are these names.
    pub fn new(alloc: Global, names: Names) -> Desk {
        Desk {
            names,
            known: Vec::new(alloc),
            values: Vec::new(alloc),
            slots: Vec::new(alloc),
            writes: Vec::new(alloc),
            deeds: Vec::new(alloc),
            entries: EntryList::new(alloc),
            questions: Vec::new(alloc),
            answers: Vec::new(alloc),
        }
    }

    /// Does what all further words say.
    pub fn read(&mut self, line: &mut Line<'_>) {
        for _word in 0..line.bound() {
            if line.is_over() {
                break;
            }
            self.follow(line.word(), line);
        }
    }

    /// Does what a word says.
    pub fn follow(&mut self, word: &str, line: &mut Line<'_>) {
        match word {
            "name" => self.declare(line),
            "number" => self.number(line),
            "unset" => line.put(&mut self.slots, Slot::Unset),
            "held" => self.hold(line),
            "write" => self.write(line),
            "deed" => self.act(line),
            "answer" => self.answer(line),
            "entry" => self.enter(line),
            "ask" => self.ask(line),
            _ => self.make(word, line),
        }
    }

    fn number(&mut self, line: &mut Line<'_>) {
        let name = Name(line.number());
        line.put(&mut self.known, name);
    }

    fn hold(&mut self, line: &mut Line<'_>) {
        let value = self.value(line);
        line.put(&mut self.slots, Slot::Held(value));
    }

    fn write(&mut self, line: &mut Line<'_>) {
        let var = self.variable(line);
        let value = self.value(line);
        line.put(&mut self.writes, Write { var, value });
    }

    fn act(&mut self, line: &mut Line<'_>) {
        let deed = self.deed_by(line);
        line.put(&mut self.deeds, deed);
    }

    fn answer(&mut self, line: &mut Line<'_>) {
        let answer = self.answer_by(line);
        line.put(&mut self.answers, answer);
    }

    /// The last value, taken from the desk; nil where there is none.
    pub fn value(&mut self, line: &mut Line<'_>) -> Value {
        line.last(&mut self.values, Value::new(Node::Nil))
    }

    /// The last slot, taken from the desk; one without a value where there is none.
    pub(crate) fn slot(&mut self, line: &mut Line<'_>) -> Slot {
        line.last(&mut self.slots, Slot::Unset)
    }

    /// The last deed, taken from the desk; a tick where there is none.
    pub(crate) fn deed(&mut self, line: &mut Line<'_>) -> Deed {
        line.last(&mut self.deeds, Deed::Tick)
    }

    /// The last question, taken from the desk; one of the time where there is none.
    pub fn question(&mut self, line: &mut Line<'_>) -> Question {
        line.last(&mut self.questions, Question::Time)
    }

    /// The last answer, taken from the desk; that it is done where there is none.
    pub fn last_answer(&mut self, line: &mut Line<'_>) -> Answer {
        line.last(&mut self.answers, Answer::Done)
    }

    /// The variable whose class and name stand next.
    pub(crate) fn variable(&self, line: &mut Line<'_>) -> VarRef {
        let class = self.name(line);
        let name = self.name(line);
        VarRef { class, name }
    }

    /// The operation whose class, name and arity stand next.
    pub(crate) fn operation(&self, line: &mut Line<'_>) -> OpRef {
        let class = self.name(line);
        let name = self.name(line);
        let arity = line.number();
        OpRef { class, name, arity }
    }
}
