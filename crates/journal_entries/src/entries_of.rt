// The entries of one object or of one thread.

ghost use Rattle.std.specs.Prelude.{◌≡◌};
ghost use Rattle.std.specs.Iterator.{YieldsFirstRef, item_count};
ghost use Rattle.run_journal.specs.Parts.{object_part, thread_part};

use run_journal::{Entry, EntryList, Thread};
use std::iter::FusedIterator;
use std::marker::Model;

/// Which entries are wanted.
#[derive(Clone, Copy, Debug)]
enum Wanted {
    On(u32),
    By(Thread),
}

/// The entries of one object or of one thread that are still to come, in order.
#[derive(Debug, Drop)]
pub struct EntriesOf<'a> {
    wanted: Wanted,
    entries: &'a [Entry],
}

impl<'a> Model for EntriesOf<'a> {
    ghost use Rattle.std.specs.Prelude.{List};
    ghost use Rattle.std.specs.Coded.{coded_list};
    ghost use Rattle.run_journal.specs.declared.entry.Entry.{Entry};
    ghost use Rattle.run_journal.specs.contracts.entry.Entry as entry;

    ghost Value = { List Entry };

    ghost coded = { coded_list entry.the_row.coded };

    ghost use Rattle.journal_entries.specs.Wanted.{wanted_part};

    ghost view = { λ it. wanted_part it.wanted it.entries.now };
}

/// The entries on the object with this number, in the order of the list.
pub fn of_object(list: &EntryList, object: u32) -> EntriesOf<'_>
    ensures { result ≡ object_part object list.now }
{
    EntriesOf {
        wanted: Wanted::On(object),
        entries: list.as_slice(),
    }
}

/// The entries of this thread, in the order of the list.
pub fn of_thread(list: &EntryList, thread: Thread) -> EntriesOf<'_>
    ensures { result ≡ thread_part thread list.now }
{
    EntriesOf {
        wanted: Wanted::By(thread),
        entries: list.as_slice(),
    }
}

impl Wanted {
    ghost use Rattle.std.specs.Prelude.{◌≡◌};
    ghost use Rattle.journal_entries.specs.Wanted.{is_wanted};

    fn takes(self, entry: &Entry) -> bool
        ensures { result ≡ is_wanted self entry.now }
    {
        match self {
            Wanted::On(object) => entry.object == object,
            Wanted::By(thread) => entry.thread == thread,
        }
    }
}

impl<'a> Iterator for EntriesOf<'a> {
    type Item = &'a Entry;

    ghost next_gives = { YieldsFirstRef (λ it. it) };

    ghost remaining = { item_count (λ it. it) };

    fn next(&mut self) -> Option<&'a Entry> {
        while let Some((first, others)) = self.entries.split_first() {
            self.entries = others;
            if self.wanted.takes(first) {
                return Some(first);
            }
        }
        None
    }
}

impl<'a> FusedIterator for EntriesOf<'a> {}
