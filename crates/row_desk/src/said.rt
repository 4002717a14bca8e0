// How answers show entries.

use row_words::Line;
use run_journal::{Entry, EntryList};

/// Says the entry that a question and an answer made, or that they made none.
pub fn say_made(line: &mut Line<'_>, made: Option<Entry>) {
    match made {
        Some(entry) => line.show(&entry),
        None => line.say("no entry"),
    }
}

/// Says entries, each behind `; `.
pub fn say_entries(line: &mut Line<'_>, entries: &EntryList) {
    for entry in entries.as_slice() {
        line.say("; ");
        line.show(entry);
    }
}
