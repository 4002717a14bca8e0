// What answers say. A part that is shown as `Debug` has it stands between two tabs.

use crate::line::Line;
use percent_encoding::{CONTROLS, percent_encode};
use std::fmt::{Debug, Write};
use vdm_kinds::{Name, SpecFault};
use vdm_names::Names;

impl Line<'_> {
    /// Appends a text.
    pub fn say(&mut self, text: &str) {
        if self.out.push_str(text).is_err() {
            self.fall_short();
        }
    }

    /// Appends `yes` or `no`.
    pub fn say_whether(&mut self, holds: bool) {
        self.say(if holds { "yes" } else { "no" });
    }

    /// Appends a number.
    pub fn say_number(&mut self, number: u64) {
        if write!(self.out, "{number}").is_err() {
            self.fall_short();
        }
    }

    /// Appends how many there are of something.
    pub fn say_count(&mut self, count: usize) {
        self.say_number(count as u64);
    }

    /// Appends the number and the name of a fault.
    pub fn say_fault(&mut self, number: u32, name: &str) {
        self.say_number(u64::from(number));
        self.say(" ");
        self.say(name);
    }

    /// Appends the number, the name and the place of a refusal.
    pub fn say_refusal(&mut self, fault: SpecFault) {
        self.say_fault(u32::from(fault.kind.number()), fault.kind.name());
        self.say(" at ");
        self.show(&fault.place);
    }

    /// Appends what `Debug` shows of it.
    pub fn show<T: Debug>(&mut self, it: &T) {
        if write!(self.out, "\t{it:?}\t").is_err() {
            self.fall_short();
        }
    }

    /// Appends what `Debug` shows of it, with no tabs.
    pub fn show_bare<T: Debug>(&mut self, it: &T) {
        if write!(self.out, "{it:?}").is_err() {
            self.fall_short();
        }
    }

    /// Appends what stands before the item of this index: a blank, where others stand before it.
    pub fn say_blank(&mut self, index: usize) {
        if index > 0 {
            self.say(" ");
        }
    }

    /// Appends bytes, those of no sign or letter of ASCII as `%0A`.
    pub fn say_bytes(&mut self, bytes: &[u8]) {
        if percent_encode(bytes, CONTROLS)
            .append_to(&mut self.out)
            .is_err()
        {
            self.fall_short();
        }
    }

    /// Appends a tab and the texts of all names: names are shown by their numbers.
    pub fn say_names(&mut self, names: &Names) {
        self.say("\t");
        self.say_texts(names);
    }

    /// Appends the texts of all names, each behind a blank.
    pub fn say_texts(&mut self, names: &Names) {
        for number in 0..names.len() {
            if let Ok(number) = u32::try_from(number) {
                self.say(" ");
                self.say(names.text(Name(number)).unwrap_or(""));
            }
        }
    }
}
