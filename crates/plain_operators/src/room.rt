// Room for what is made.

ghost use Rattle.std.specs.List.Sorted.{IsStrictlySortedBy};
ghost use Rattle.abstract_syntax.specs.ValueOrder.{value_order};

use crate::insertion::rising_by_insertion;
use std::alloc::Global;
use vdm_values::{Node, Value};

/// Where lists and copies find room. Want of memory is noted, and what was wanted is left out.
#[derive(Drop)]
pub struct Room {
    alloc: Global,
    is_short: bool,
}

impl Room {
    /// Room where nothing was wanting so far.
    pub fn new(alloc: Global) -> Room {
        Room {
            alloc,
            is_short: false,
        }
    }

    /// Whether memory was wanting, so that what was made stands for nothing.
    pub fn is_short(&self) -> bool {
        self.is_short
    }

    /// An empty list.
    pub(crate) fn list<T: Drop>(&self) -> Vec<T> {
        Vec::new(self.alloc)
    }

    /// Puts the item at the end.
    pub(crate) fn put<T: Drop>(&mut self, list: &mut Vec<T>, item: T) {
        if list.push(item).is_err() {
            self.is_short = true;
        }
    }

    /// Puts a copy of the value at the end.
    pub(crate) fn keep(&mut self, list: &mut Vec<Value>, value: &Value) {
        let copy = self.copy(value);
        self.put(list, copy);
    }

    /// Puts copies of the values at the end.
    pub(crate) fn keep_all(&mut self, list: &mut Vec<Value>, values: &[Value]) {
        for value in values {
            self.keep(list, value);
        }
    }

    /// Puts a pair of copies at the end.
    pub(crate) fn keep_pair(&mut self, list: &mut Vec<(Value, Value)>, key: &Value, value: &Value) {
        let pair = (self.copy(key), self.copy(value));
        self.put(list, pair);
    }

    fn copy(&mut self, value: &Value) -> Value {
        match value.copy(self.alloc) {
            Ok(copy) => copy,
            Err(_) => {
                self.is_short = true;
                Value::new(Node::Nil)
            }
        }
    }

    /// What the value is.
    pub(crate) fn node(&mut self, value: &Value) -> Node {
        match value.node().copy(self.alloc) {
            Ok(copy) => copy,
            Err(_) => {
                self.is_short = true;
                Node::Nil
            }
        }
    }

    /// The items in order, each once.
    pub(crate) fn rising<T: Ord + Drop>(&mut self, items: Vec<T>) -> Vec<T> {
        match rising_by_insertion(self.alloc, items) {
            Ok(risen) => risen,
            Err(_) => {
                self.is_short = true;
                self.list()
            }
        }
    }

    /// The set of the values.
    pub(crate) fn set(&mut self, values: Vec<Value>) -> Value {
        Value::new(Node::Set(rising_values(self, values)))
    }
}

fn rising_values(room: &mut Room, values: Vec<Value>) -> Vec<Value>
    ensures { IsStrictlySortedBy value_order result.items }
{
    match rising_by_insertion(room.alloc, values) {
        Ok(risen) => risen,
        Err(_) => {
            room.is_short = true;
            Vec::new(room.alloc)
        }
    }
}
