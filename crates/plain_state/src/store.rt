// The list of entries of a run, from which its questions are answered.

ghost use Rattle.std.specs.Prelude.{◌≡◌};
ghost use Rattle.vdm_legal.specs.Order.{above_all};
ghost use Rattle.plain_state.specs.Found.{FindsFirsts, FindsWrites};

use crate::calls::ticks_on;
use crate::classes::count_of;
use crate::keeping::{guarded_class, slot_with, write_answer};
use crate::layout::object_variables;
use crate::places::{Place, behind, note_deed, place_of, up_to};
use crate::state::{Holding, held_by, slot_of};
use eval_data::Held;
use journal_entries::entry_made;
use kept_invariants::keeps;
use run_journal::{Answer, Deed, Entry, EntryList, Question, Thread, Write, WriteList};
use spec_table::ClassTable;
use std::alloc::Global;
use std::collections::HashMap;
use vdm_kinds::{Name, OutOfMemory, VarRef};
use vdm_values::{Slot, SlotList};

/// The entries of a run so far. What a question asks is found in them, and beside them stands where to look, so that a read
/// doesn't walk through all of them.
#[derive(Drop)]
pub struct Store {
    entries: EntryList,
    // One more than the greatest number of an object on which an entry stands.
    above: u64,
    // How many entries stand before the first on each object, by the objects' numbers.
    firsts: Vec<usize>,
    // The number of the last entry that wrote each variable of an object.
    writes: HashMap<Place, usize>,
    ghost is_above: { above ≡ above_all entries },
    ghost finds_firsts: { FindsFirsts firsts.items entries },
    ghost finds_writes: { FindsWrites writes entries },
}

impl Store {
    ghost use Rattle.std.specs.Prelude.{◌≡◌, [], IfOk, OnErr};
    ghost use Rattle.spec_table.specs.Tables.{table_spec};
    ghost use Rattle.plain_state.specs.Entered.{IsEntered, journal};
    ghost use Rattle.plain_state.specs.Readiness.{IsReadyFor};

    /// The store of no entries, which takes no memory.
    pub fn new(alloc: Global) -> Store
        ensures { journal result ≡ [] }
    {
        Store {
            entries: EntryList::new(alloc),
            above: 0,
            firsts: Vec::new(alloc),
            writes: HashMap::new(alloc),
        }
    }

    /// Answers the thread's question and enters the entry.
    ///
    /// # Errors
    /// Where memory is refused, or no number is left for a new object: then nothing is entered.
    pub fn answer(
        &mut self,
        alloc: Global,
        table: &ClassTable,
        thread: Thread,
        question: Question,
    ) -> Result<Answer, OutOfMemory>
        requires ready { IsReadyFor (table_spec table.now) thread (journal self.old) question }
        ensures entered { IfOk result (λ answer.
            IsEntered (table_spec table.now) thread (journal self.old) question answer (journal self.new)) }
        ensures err { OnErr result (journal self.new ≡ journal self.old) }
    {
        match question {
            Question::New { class, values } => self.make(table, thread, class, values),
            Question::Read { object, var } => self.read(alloc, table, thread, object, var),
            Question::Write { object, writes } => self.write(alloc, table, thread, object, writes),
            Question::Time => self.tell(table, thread),
            question => self.note(table, thread, question),
        }
    }

    /// The entries so far, in order.
    pub fn entries(&self) -> &EntryList
        ensures { result.now ≡ journal self.now }
    {
        &self.entries
    }

    /// The entries, in order.
    pub fn into_journal(self) -> EntryList
        ensures { result ≡ journal self }
    {
        let Store { entries, .. } = self;
        entries
    }
}

impl Store {
    ghost use Rattle.std.specs.Prelude.{◌≡◌, [], ◌∷◌, ◌++◌, IfOk, OnErr, OnOk};
    ghost use Rattle.vdm_legal.specs.Order.{next_number};
    ghost use Rattle.vdm_legal.specs.Ready.{IsReady};
    ghost use Rattle.spec_table.specs.Tables.{table_spec};
    ghost use Rattle.plain_state.specs.Entered.{HasNothingToTell, IsEntered, journal};
    ghost use Rattle.plain_state.specs.Readiness.{IsReadyFor};

    /// Makes a new object.
    fn make(
        &mut self,
        table: &ClassTable,
        thread: Thread,
        class: Name,
        values: SlotList,
    ) -> Result<Answer, OutOfMemory>
        ensures entered { IfOk result (λ answer.
            IsEntered (table_spec table.now) thread (journal self.old) (Question.New class values) answer (journal self.new)) }
        ensures err { OnErr result (journal self.new ≡ journal self.old) }
    {
        let object = self.next_number(table)?;
        self.enter(Entry::new(thread, object, Deed::New { class, values }))?;
        Ok(Answer::Object(object))
    }

    /// Reads a variable of an object. The entry and the answer each have their own copy of the value.
    fn read(
        &mut self,
        alloc: Global,
        table: &ClassTable,
        thread: Thread,
        object: u32,
        var: VarRef,
    ) -> Result<Answer, OutOfMemory>
        requires ready { IsReady (table_spec table.now) (journal self.old) (Question.Read object var) }
        ensures entered { IfOk result (λ answer.
            IsEntered (table_spec table.now) thread (journal self.old) (Question.Read object var) answer (journal self.new)) }
        ensures err { OnErr result (journal self.new ≡ journal self.old) }
    {
        let value = self.held(alloc, table, object, var)?;
        let answer = Answer::Slot(value.copy(alloc)?);
        self.enter(Entry::new(thread, object, Deed::Read { var, value }))?;
        Ok(answer)
    }

    /// Writes variables of an object together, or refuses where an invariant of the object would not hold behind that.
    fn write(
        &mut self,
        alloc: Global,
        table: &ClassTable,
        thread: Thread,
        object: u32,
        writes: WriteList,
    ) -> Result<Answer, OutOfMemory>
        requires ready { IsReady (table_spec table.now) (journal self.old) (Question.Write object writes) }
        ensures entered { IfOk result (λ answer.
            IsEntered (table_spec table.now) thread (journal self.old) (Question.Write object writes) answer (journal self.new)) }
        ensures err { OnErr result (journal self.new ≡ journal self.old) }
    {
        let kept = self.keeps(alloc, table, object, writes.as_slice())?;
        let refused = !kept;
        self.enter(Entry::new(thread, object, Deed::Write { writes, refused }))?;
        Ok(write_answer(kept))
    }

    /// Tells the time: how often the clock was moved on.
    fn tell(&mut self, table: &ClassTable, thread: Thread) -> Result<Answer, OutOfMemory>
        requires ready { IsReady (table_spec table.now) (journal self.old) Question.Time }
        ensures entered { IfOk result (λ answer.
            IsEntered (table_spec table.now) thread (journal self.old) Question.Time answer (journal self.new)) }
        ensures err { OnErr result (journal self.new ≡ journal self.old) }
    {
        let ticks = ticks_on(self.entries.as_slice(), 0);
        self.enter(Entry::new(thread, 0, Deed::Time { ticks }))?;
        Ok(Answer::Ticks(ticks))
    }

    /// Enters what the thread did where there is nothing to tell.
    fn note(
        &mut self,
        table: &ClassTable,
        thread: Thread,
        question: Question,
    ) -> Result<Answer, OutOfMemory>
        requires ready { IsReadyFor (table_spec table.now) thread (journal self.old) question }
        requires done { HasNothingToTell question }
        ensures entered { IfOk result (λ answer.
            IsEntered (table_spec table.now) thread (journal self.old) question answer (journal self.new)) }
        ensures err { OnErr result (journal self.new ≡ journal self.old) }
    {
        let Some(entry) = entry_made(thread, question, Answer::Done) else {
            unreachable!()
        };
        self.enter(entry)?;
        Ok(Answer::Done)
    }

    /// The number that a new object gets. Where 32 bits hold no further number, memory is wanting.
    fn next_number(&self, table: &ClassTable) -> Result<u32, OutOfMemory>
        ensures { IfOk result (λ number. number ≡ next_number (table_spec table.now) (journal self.now)) }
    {
        let first = count_of(table) as u64;
        let next = if first > self.above {
            first
        } else {
            self.above
        };
        if next > u32::MAX as u64 {
            return Err(OutOfMemory);
        }
        Ok(next as u32)
    }

    /// Adds the entry last.
    fn enter(&mut self, entry: Entry) -> Result<(), OutOfMemory>
        ensures ok { OnOk result (journal self.new ≡ journal self.old ++ entry ∷ []) }
        ensures err { OnErr result (journal self.new ≡ journal self.old) }
    {
        self.note_first(entry.object)?;
        self.note_writes(entry.object, &entry.deed)?;
        self.push(entry)
    }
}

impl Store {
    ghost use Rattle.std.specs.Prelude.{◌≡◌, ℕ, [], ◌∷◌, ◌++◌, length, map, take, drop, IfOk, OnErr, OnOk};
    ghost use Rattle.vdm_kinds.specs.declared.member.VarRef.{VarRef as Variable};
    ghost use Rattle.run_journal.specs.Parts.{object_part};
    ghost use Rattle.vdm_legal.specs.State.{keeps_with, state_of, state_with};
    ghost use Rattle.spec_table.specs.Tables.{table_spec};
    ghost use Rattle.plain_state.specs.Entered.{journal};
    ghost use Rattle.plain_state.specs.Found.{AreNoted, IsFirst, IsLast};
    ghost use Rattle.plain_state.specs.Guarded.{guarded_class};
    ghost use Rattle.plain_state.specs.Holdings.{held_slot};

    /// Whether the invariants of the object hold once these are written.
    fn keeps(
        &self,
        alloc: Global,
        table: &ClassTable,
        object: u32,
        writes: &[Write],
    ) -> Result<bool, OutOfMemory>
        ensures { IfOk result (λ kept. kept ≡ keeps_with (table_spec table.now) (object_part object (journal self.now)) writes.now) }
    {
        let Some(class) = self.guarded_class(table, object) else {
            return Ok(true);
        };
        let variables = object_variables(table, class);
        let held = self.held_with(alloc, table, object, writes, variables)?;
        keeps(alloc, table, class, held)
    }

    /// The class of the object, where it has invariants to keep.
    fn guarded_class(&self, table: &ClassTable, object: u32) -> Option<Name>
        ensures { result ≡ guarded_class (table_spec table.now) (object_part object (journal self.now)) }
    {
        let made = behind(self.entries.as_slice(), self.first(object));
        guarded_class(table, made, object)
    }

    /// What the variables of the object hold once these are written.
    fn held_with(
        &self,
        alloc: Global,
        table: &ClassTable,
        object: u32,
        writes: &[Write],
        variables: &[VarRef],
    ) -> Result<Held, OutOfMemory>
        ensures { IfOk result (λ held. held.variables.items ≡ map (λ (var : Variable). (var, state_with (table_spec table.now) (object_part object (journal self.now)) writes.now var)) variables.now) }
    {
        let mut held = Vec::with_capacity(alloc, variables.len())?;
        for var in variables {
            let before = self.holding(table, object, *var);
            held.push((*var, slot_with(alloc, before, *var, writes)?))?;
        }
        Ok(Held { variables: held })
    }

    /// A copy of what the variable of the object holds.
    fn held(
        &self,
        alloc: Global,
        table: &ClassTable,
        object: u32,
        var: VarRef,
    ) -> Result<Slot, OutOfMemory>
        ensures { IfOk result (λ held. held ≡ state_of (table_spec table.now) (object_part object (journal self.now)) var) }
    {
        slot_of(alloc, self.holding(table, object, var))
    }

    /// What the variable of the object holds, where it stands.
    fn holding(&self, table: &ClassTable, object: u32, var: VarRef) -> Holding<'_>
        ensures { held_slot result ≡ state_of (table_spec table.now) (object_part object (journal self.now)) var }
    {
        let entries = self.entries.as_slice();
        let made = behind(entries, self.first(object));
        let written = up_to(entries, self.last_write(object, var));
        held_by(table, made, written, object, var)
    }

    /// So many entries that none of them stands on the object: all before its first, where its number is known.
    fn first(&self, object: u32) -> usize
        ensures { IsFirst (journal self.now) object result }
    {
        match self.firsts.get(object as usize) {
            Some(number) => *number,
            None => 0,
        }
    }

    /// The number of the last entry that wrote the variable of the object.
    fn last_write(&self, object: u32, var: VarRef) -> Option<usize>
        ensures { IsLast (journal self.now) object var result }
    {
        self.writes.get(&place_of(object, var)).copied()
    }

    /// Notes where the first entry on a new object will stand. Objects get their numbers in order.
    fn note_first(&mut self, object: u32) -> Result<(), OutOfMemory>
        ensures { journal self.new ≡ journal self.old }
    {
        if object as u64 >= self.above && object as usize == self.firsts.len() {
            self.firsts.push(self.entries.len())?;
        }
        Ok(())
    }

    /// Notes that the next entry will be the last that wrote the variables which the deed writes.
    fn note_writes(&mut self, object: u32, deed: &Deed) -> Result<(), OutOfMemory>
        ensures same { journal self.new ≡ journal self.old }
        ensures noted { OnOk result (AreNoted self.new.writes object deed.now (length (journal self.new))) }
    {
        let number = self.entries.len();
        note_deed(&mut self.writes, object, deed, number)
    }

    /// Adds the entry last, whose writes are noted.
    fn push(&mut self, entry: Entry) -> Result<(), OutOfMemory>
        requires { AreNoted self.old.writes entry.object entry.deed (length (journal self.old)) }
        ensures ok { OnOk result (journal self.new ≡ journal self.old ++ entry ∷ []) }
        ensures err { OnErr result (journal self.new ≡ journal self.old) }
    {
        let above = entry.object as u64 + 1;
        self.entries.push(entry)?;
        if above > self.above {
            self.above = above;
        }
        Ok(())
    }
}
