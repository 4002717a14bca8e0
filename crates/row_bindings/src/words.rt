// The words of an input.

use std::alloc::Global;
use std::fmt::Write;
use vdm_kinds::OutOfMemory;

/// What stands before the words of each input: the numbers of its names, and the record types that there are. The names from 0 on may be
/// bound, 3 is that of a quote, 4 and 5 are classes. Of the types, 6 is in both classes, 7 in the first one, which is the scope, and 8 in
/// none.
const DECLARED: &str =
    "number 0 number 1 number 2 number 3 number 4 number 5 number 6 number 7 number 8 scope 4 record-type 4 6 0 record-type 4 7 0 record-type 5 6 0";

/// The words that make values that are given, a value and a pattern, each in text order. Want of memory is noted.
#[derive(Drop)]
pub(crate) struct Words {
    given: String,
    value: String,
    pattern: String,
    is_short: bool,
}

impl Words {
    pub(crate) fn new(alloc: Global) -> Words {
        Words {
            given: String::new(alloc),
            value: String::new(alloc),
            pattern: String::new(alloc),
            is_short: false,
        }
    }

    /// No words.
    pub(crate) fn clear(&mut self) {
        self.given.clear();
        self.value.clear();
        self.pattern.clear();
    }

    /// The instruction of a value.
    pub(crate) fn value(&mut self, word: &str) {
        let said = say(&mut self.value, "", word);
        self.note(said);
    }

    /// The instruction of a value, with a number.
    pub(crate) fn value_of(&mut self, word: &str, number: u32) {
        let said = say_number(&mut self.value, "", word, number);
        self.note(said);
    }

    /// The instruction of a pattern.
    pub(crate) fn pattern(&mut self, word: &str) {
        let said = say(&mut self.pattern, "pattern ", word);
        self.note(said);
    }

    /// The instruction of a pattern, with a number.
    pub(crate) fn pattern_of(&mut self, word: &str, number: u32) {
        let said = say_number(&mut self.pattern, "pattern ", word, number);
        self.note(said);
    }

    /// A number that is given for a bracketed expression.
    pub(crate) fn given(&mut self, number: u32) {
        let said = say_number(&mut self.given, "", "int", number);
        self.note(said);
    }

    fn note(&mut self, said: Result<(), OutOfMemory>) {
        if said.is_err() {
            self.is_short = true;
        }
    }

    /// All words, those of the values that are given first.
    pub(crate) fn line(&self, alloc: Global) -> Result<String, OutOfMemory> {
        if self.is_short {
            return Err(OutOfMemory);
        }
        let mut line = String::new(alloc);
        line.push_str(DECLARED)?;
        line.push_str(self.given.as_str())?;
        line.push_str(self.value.as_str())?;
        line.push_str(self.pattern.as_str())?;
        Ok(line)
    }
}

fn say(out: &mut String, before: &str, word: &str) -> Result<(), OutOfMemory> {
    out.push_str(" ")?;
    out.push_str(before)?;
    Ok(out.push_str(word)?)
}

fn say_number(out: &mut String, before: &str, word: &str, number: u32) -> Result<(), OutOfMemory> {
    say(out, before, word)?;
    write!(out, " {number}").map_err(|_| OutOfMemory)
}
