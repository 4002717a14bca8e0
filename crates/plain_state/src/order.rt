// The order of one lane, in which new objects are numbered one after another.

ghost use Rattle.std.specs.Prelude.{◌≡◌, ◌↔◌, IsTrue};
ghost use Rattle.spec_table.specs.Tables.{table_spec};
ghost use Rattle.vdm_legal.specs.Order.{IsInOrder, IsNumbered, above_all, next_number};

use crate::classes::count_of;
use run_journal::{Deed, Entry, EntryList};
use spec_table::ClassTable;

/// Whether the entries stand in the order of one lane: each new object has the number that is due.
pub fn is_in_order(table: &ClassTable, entries: &EntryList) -> bool
    ensures { IsTrue result ↔ IsInOrder (table_spec table.now) entries.now }
{
    let entries = entries.as_slice();
    for (index, entry) in entries.iter().enumerate() {
        if !is_numbered(table, &entries[..index], entry) {
            return false;
        }
    }
    true
}

/// Whether an object that the entry makes has the number that is due.
fn is_numbered(table: &ClassTable, before: &[Entry], entry: &Entry) -> bool
    ensures { IsTrue result ↔ IsNumbered (table_spec table.now) before.now entry.now.object entry.now.deed }
{
    match entry.deed {
        Deed::New { .. } => entry.object as usize == next_number(table, before),
        _ => true,
    }
}

/// The number of the next new object: above those of all class objects, and above all on which an entry stands.
fn next_number(table: &ClassTable, before: &[Entry]) -> usize
    ensures { result ≡ next_number (table_spec table.now) before.now }
{
    above_all(before).max(count_of(table))
}

/// One more than the greatest number of an object on which an entry stands.
fn above_all(entries: &[Entry]) -> usize
    ensures { result ≡ above_all entries.now }
{
    let mut above = 0;
    for entry in entries {
        above = above.max(entry.object as usize + 1);
    }
    above
}
