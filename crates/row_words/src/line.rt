// The line of a request, and what comes of it.

use std::alloc::Global;
use vdm_kinds::Halt;

/// The words of a request that are still to be read, with a blank between each two, and what is answered so far.
///
/// What cannot be read is noted, and want of memory too; then the methods give a value that stands for nothing and go on.
/// So none who reads or answers has to stop, and the loop over the lines asks once whether there is an answer.
#[derive(Drop)]
pub struct Line<'a> {
    pub(crate) alloc: Global,
    pub(crate) rest: &'a [u8],
    pub(crate) out: String,
    is_readable: bool,
    is_short: bool,
}

impl<'a> Line<'a> {
    /// All words of the line are to be read, and nothing is answered.
    pub fn new(alloc: Global, line: &'a str) -> Line<'a> {
        Line {
            alloc,
            rest: line.as_bytes(),
            out: String::new(alloc),
            is_readable: true,
            is_short: false,
        }
    }

    /// What has room for all that the request makes.
    pub fn alloc(&self) -> Global {
        self.alloc
    }

    /// Notes that the words are none that requests have.
    pub fn refuse(&mut self) {
        self.is_readable = false;
    }

    /// Notes want of memory.
    pub fn fall_short(&mut self) {
        self.is_short = true;
    }

    /// Notes why a call stopped: a fault of its own is not one that this request asks for.
    pub fn stop<F: Drop>(&mut self, halt: Halt<F>) {
        match halt {
            Halt::Of(_) => self.refuse(),
            Halt::OutOfMemory => self.fall_short(),
        }
    }

    /// Whether memory was wanting.
    pub fn is_short(&self) -> bool {
        self.is_short
    }

    /// The answer.
    pub fn answer(&self) -> &str {
        if self.is_readable {
            self.out.as_str()
        } else {
            "unreadable"
        }
    }
}
