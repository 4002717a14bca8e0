// What is matched, as the words of a request say it.

use crate::growing::Growing;
use crate::record_types::RecordTypes;
use expr_tree::Pattern;
use patterns::{BindList, bind};
use row_desk::Desk;
use row_words::Line;
use std::alloc::Global;
use vdm_kinds::{Halt, RunFault};
use vdm_values::{Value, ValueList};

/// A pattern and a value, the values of the pattern's bracketed expressions, and the record types that there are.
pub struct Asked {
    pub pattern: Pattern,
    pub value: Value,
    pub given: ValueList,
    pub types: RecordTypes,
}

// A derived drop would be proved again in each crate that drops one.
impl Drop for Asked {
    fn drop(self) {
        let Asked {
            pattern: _pattern,
            value: _value,
            given: _given,
            types: _types,
        } = self;
    }
}

impl Asked {
    /// What all further words say: the last pattern and the last value; the values before it are those of bracketed expressions.
    pub fn read(desk: &mut Desk, line: &mut Line<'_>) -> Asked {
        let mut growing = Growing::new(line.alloc());
        let mut types = RecordTypes::new(line.alloc());
        follow(desk, &mut growing, &mut types, line);
        let pattern = growing.last(line);
        let value = desk.value(line);
        let given = ValueList::from_vec(desk.all_values(line));
        Asked {
            pattern,
            value,
            given,
            types,
        }
    }

    /// The first binding.
    pub fn first(&self, alloc: Global) -> Result<Option<BindList>, Halt<RunFault>> {
        let scope = self.types.scope;
        bind(
            alloc,
            &self.pattern,
            &self.value,
            &self.given,
            scope,
            &self.types,
        )
    }
}

fn follow(desk: &mut Desk, growing: &mut Growing, types: &mut RecordTypes, line: &mut Line<'_>) {
    for _word in 0..line.bound() {
        if line.is_over() {
            break;
        }
        match line.word() {
            "pattern" => growing.grow(desk, line),
            "scope" => types.scope = desk.name(line),
            "record-type" => types.declare(desk, line),
            "same-type" => types.rename(desk, line),
            word => desk.follow(word, line),
        }
    }
}
