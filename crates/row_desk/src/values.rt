// Names and values in requests.

ghost use Rattle.vdm_values.specs.Tree.{IsRising};

use crate::desk::Desk;
use row_words::Line;
use std::mem;
use vdm_kinds::{Halt, Name, RunFault};
use vdm_sets::{map_from, set_from};
use vdm_values::{Node, PairList, Slot, Value, ValueList};

/// More names than any row has.
pub const MOST_NAMES: usize = 1_000_000;

impl Desk {
    /// Declares the name of the text that stands next.
    pub(crate) fn declare(&mut self, line: &mut Line<'_>) {
        if let Some(name) = self.named(line) {
            line.put(&mut self.known, name);
        }
    }

    /// The name of the text that stands next, which is added where it is new.
    pub fn named(&mut self, line: &mut Line<'_>) -> Option<Name> {
        let text = line.text();
        if self.names.len() > MOST_NAMES {
            line.refuse();
            return None;
        }
        let name = self.names.name(text.as_str()).ok();
        if name.is_none() {
            line.fall_short();
        }
        name
    }

    /// The declared name of the index that stands next.
    pub fn name(&self, line: &mut Line<'_>) -> Name {
        let index = line.count();
        line.found(self.known.get(index).copied(), Name(0))
    }

    /// The last two names that were declared.
    pub fn last_names(&self, line: &mut Line<'_>) -> (Name, Name) {
        match self.known.as_slice() {
            [.., class, name] => (*class, *name),
            _ => {
                line.refuse();
                (Name(0), Name(0))
            }
        }
    }

    /// Makes the value that a word says.
    pub(crate) fn make(&mut self, word: &str, line: &mut Line<'_>) {
        let value = match word {
            "set" => self.set(line),
            "map" => self.map(line),
            "token" | "tuple" | "seq" | "record" => Value::new(self.compound(word, line)),
            _ => Value::new(self.leaf(word, line)),
        };
        line.put(&mut self.values, value);
    }

    fn leaf(&self, word: &str, line: &mut Line<'_>) -> Node
        ensures { IsRising result }
    {
        match word {
            "nil" => Node::Nil,
            "true" => Node::Bool(true),
            "false" => Node::Bool(false),
            "int" => Node::Int(line.integer()),
            "char" => character(line),
            "quote" => Node::Quote(self.name(line)),
            "object" => Node::Object {
                number: line.number(),
                class: self.name(line),
            },
            _ => {
                line.refuse();
                Node::Nil
            }
        }
    }

    fn compound(&mut self, word: &str, line: &mut Line<'_>) -> Node
        ensures { IsRising result }
    {
        match word {
            "token" => self.token(line),
            "tuple" => Node::Tuple(self.last_values(line)),
            "seq" => Node::Seq(self.last_values(line)),
            _ => Node::Rec {
                class: self.name(line),
                name: self.name(line),
                fields: self.last_values(line),
            },
        }
    }

    fn set(&mut self, line: &mut Line<'_>) -> Value {
        let items = ValueList::from_vec(self.last_values(line));
        let made = set_from(line.alloc(), items);
        made_value(line, made)
    }

    fn map(&mut self, line: &mut Line<'_>) -> Value {
        let tuples = self.last_values(line);
        let pairs = PairList::from_vec(pairs_of(line, tuples));
        let made = map_from(line.alloc(), pairs);
        made_value(line, made)
    }

    fn token(&mut self, line: &mut Line<'_>) -> Node
        ensures { IsRising result }
    {
        match Box::new(line.alloc(), self.value(line)) {
            Ok(value) => Node::Token(value),
            Err(_) => {
                line.fall_short();
                Node::Nil
            }
        }
    }

    /// So many of the last values as the next word says.
    pub(crate) fn last_values(&mut self, line: &mut Line<'_>) -> Vec<Value> {
        let count = line.count();
        line.last_of(&mut self.values, count)
    }

    /// So many of the last slots as the next word says.
    pub(crate) fn last_slots(&mut self, line: &mut Line<'_>) -> Vec<Slot> {
        let count = line.count();
        line.last_of(&mut self.slots, count)
    }

    /// All values, taken from the desk.
    pub fn all_values(&mut self, line: &Line<'_>) -> Vec<Value> {
        mem::replace(&mut self.values, Vec::new(line.alloc()))
    }
}

/// The value that was made, or else nil, which stands for nothing.
pub fn made_value(line: &mut Line<'_>, made: Result<Value, Halt<RunFault>>) -> Value {
    match made {
        Ok(value) => value,
        Err(halt) => {
            line.stop(halt);
            Value::new(Node::Nil)
        }
    }
}

fn character(line: &mut Line<'_>) -> Node
    ensures { IsRising result }
{
    let number = line.number();
    Node::Char(line.found(char::from_u32(number), ' '))
}

/// Keys and values, each two of which are a tuple.
pub fn pairs_of(line: &mut Line<'_>, tuples: Vec<Value>) -> Vec<(Value, Value)> {
    let mut pairs = Vec::new(line.alloc());
    for tuple in tuples {
        push_pair(line, &mut pairs, tuple);
    }
    pairs
}

fn push_pair(line: &mut Line<'_>, pairs: &mut Vec<(Value, Value)>, tuple: Value) {
    match tuple.into_node(line.alloc()) {
        Ok(Node::Tuple(mut parts)) => {
            let value = line.last(&mut parts, Value::new(Node::Nil));
            let key = line.last(&mut parts, Value::new(Node::Nil));
            line.put(pairs, (key, value));
        }
        Ok(_) => line.refuse(),
        Err(_) => line.fall_short(),
    }
}
