// What the words of a line say.

use crate::line::Line;
use percent_encoding::percent_decode;
use vdm_kinds::{OutOfMemory, Part, Place};

impl<'a> Line<'a> {
    /// Whether no word is left.
    pub fn is_over(&self) -> bool {
        self.rest.is_empty()
    }

    /// How many words are left at most.
    pub fn bound(&self) -> usize {
        self.rest.len()
    }

    /// The next word, which is empty where none is left.
    pub fn word(&mut self) -> &'a str {
        let mut length: usize = 0;
        for byte in self.rest {
            if *byte == b' ' {
                break;
            }
            length = length.saturating_add(1);
        }
        let (word, rest) = self.rest.split_at(length.min(self.rest.len()));
        self.rest = match rest.split_first() {
            Some((_, behind)) => behind,
            None => rest,
        };
        str::from_utf8(word).unwrap_or("")
    }

    /// What was found, or else the other, which stands for nothing.
    pub fn found<T: Drop>(&mut self, part: Option<T>, other: T) -> T {
        match part {
            Some(part) => part,
            None => {
                self.refuse();
                other
            }
        }
    }

    /// What was made, or else the other, which stands for nothing.
    pub fn made<T: Drop>(&mut self, part: Result<T, OutOfMemory>, other: T) -> T {
        match part {
            Ok(part) => part,
            Err(OutOfMemory) => {
                self.fall_short();
                other
            }
        }
    }

    /// A whole number of at most 64 bits.
    pub fn whole(&mut self) -> u64 {
        let number = self.word().parse::<u64>().ok();
        self.found(number, 0)
    }

    /// A whole number of at most 32 bits.
    pub fn number(&mut self) -> u32 {
        let number = self.word().parse::<u32>().ok();
        self.found(number, 0)
    }

    /// How many there are of something.
    pub fn count(&mut self) -> usize {
        let count = self.word().parse::<usize>().ok();
        self.found(count, 0)
    }

    /// An integer of 128 bits.
    pub fn integer(&mut self) -> i128 {
        let integer = self.word().parse::<i128>().ok();
        self.found(integer, 0)
    }

    /// The bytes of a text, which stand behind a dot; some are written as `%41`.
    pub fn bytes(&mut self) -> Vec<u8> {
        let mut bytes = Vec::new(self.alloc);
        match self.word().strip_prefix(".") {
            Some(word) => {
                if percent_decode(word.as_bytes())
                    .append_to(&mut bytes)
                    .is_err()
                {
                    self.fall_short();
                }
            }
            None => self.refuse(),
        }
        bytes
    }

    /// A text.
    pub fn text(&mut self) -> String {
        match String::from_utf8(self.bytes()) {
            Ok(text) => text,
            Err(_) => {
                self.refuse();
                String::new(self.alloc)
            }
        }
    }

    /// Which text: `spec` or `expr`.
    pub fn part(&mut self) -> Part {
        match self.word() {
            "spec" => Part::Spec,
            "expr" => Part::Expr,
            _ => {
                self.refuse();
                Part::Expr
            }
        }
    }

    /// A line and a column in this part.
    pub fn spot(&mut self, part: Part) -> Place {
        let line = self.number();
        let column = self.number();
        Place { part, line, column }
    }

    /// Puts an item on a stack of what the words made.
    pub fn put<T: Drop>(&mut self, stack: &mut Vec<T>, item: T) {
        if stack.push(item).is_err() {
            self.fall_short();
        }
    }

    /// The last item, taken from the stack, or else the other, which stands for nothing.
    pub fn last<T: Drop>(&mut self, stack: &mut Vec<T>, other: T) -> T {
        self.found(stack.pop(), other)
    }

    /// The last `count` items in their order, taken from the stack.
    pub fn last_of<T: Drop>(&mut self, stack: &mut Vec<T>, count: usize) -> Vec<T> {
        let before = match stack.len().checked_sub(count) {
            Some(before) => before,
            None => {
                self.refuse();
                0
            }
        };
        match stack.split_off(before) {
            Ok(items) => items,
            Err(_) => {
                self.fall_short();
                Vec::new(self.alloc)
            }
        }
    }
}
