// A list of slots, which clauses see as a list.

ghost use Rattle.std.specs.Prelude.{◌≡◌, IfOk, IsTrue, ◌↔◌, length, []};

use crate::slot::Slot;
use std::alloc::Global;
use std::marker::Model;
use vdm_kinds::OutOfMemory;

/// A list of slots.
#[derive(Debug, Drop)]
pub struct SlotList {
    slots: Vec<Slot>,
}

impl Model for SlotList {
    ghost use Rattle.std.specs.Prelude.{List};
    ghost use Rattle.std.specs.Coded.{coded_list};
    ghost use Rattle.vdm_values.specs.declared.slot.Slot.{Slot};
    ghost use Rattle.vdm_values.specs.Slots.{slot_code};

    ghost Value = { List Slot };

    ghost coded = { coded_list slot_code };

    ghost view = { λ list. list.slots.items };
}

impl SlotList {
    /// The list of these slots; no memory is taken.
    pub fn from_vec(slots: Vec<Slot>) -> SlotList
        ensures { result ≡ slots.items }
    {
        SlotList { slots }
    }

    /// The slots in order.
    pub fn as_slice(&self) -> &[Slot]
        ensures { result.now ≡ self.now }
    {
        self.slots.as_slice()
    }

    /// The slots, taken out; no memory is taken.
    pub fn into_vec(self) -> Vec<Slot>
        ensures { result.items ≡ self }
    {
        self.slots
    }

    /// How many slots there are.
    pub fn len(&self) -> usize
        ensures { result ≡ length self.now }
    {
        self.slots.len()
    }

    /// Whether there are no slots.
    pub fn is_empty(&self) -> bool
        ensures { IsTrue result ↔ self.now ≡ [] }
    {
        self.slots.is_empty()
    }

    /// A list of its own of the same slots.
    pub fn copy(&self, alloc: Global) -> Result<SlotList, OutOfMemory>
        ensures { IfOk result (λ list. list ≡ self.now) }
    {
        let slots = copy_slots(self.slots.as_slice(), alloc)?;
        Ok(SlotList { slots })
    }
}

impl PartialEq for SlotList {
    ghost use Rattle.std.specs.Coded.{coded_list};
    ghost use Rattle.vdm_values.specs.Slots.{slot_code};
    ghost use Rattle.abstract_syntax.specs.SameBy.{same_by, same_by-laws};

    ghost eq = { same_by (coded_list slot_code) };

    ghost laws = { same_by-laws (coded_list slot_code) };

    #[tactic(auto, using(abstract_syntax::specs::SameBy::sameness))]
    fn eq(&self, other: &SlotList) -> bool {
        self.slots == other.slots
    }
}

impl Eq for SlotList {
    ghost use Rattle.std.specs.Coded.{coded_list};
    ghost use Rattle.vdm_values.specs.Slots.{slot_code};
    ghost use Rattle.abstract_syntax.specs.SameBy.{same_by-equivalence};

    ghost laws = { same_by-equivalence (coded_list slot_code) };
}

/// Copies of the slots, in order.
fn copy_slots(slots: &[Slot], alloc: Global) -> Result<Vec<Slot>, OutOfMemory>
    ensures { IfOk result (λ copies. copies.items ≡ slots.now) }
{
    let mut copies = Vec::with_capacity(alloc, slots.len())?;
    for slot in slots {
        copies.push(slot.copy(alloc)?)?;
    }
    Ok(copies)
}
