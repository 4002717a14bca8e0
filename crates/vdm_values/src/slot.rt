// What a variable holds.

ghost use Rattle.std.specs.Prelude.{◌≡◌, IfOk};

use crate::value::Value;
use std::alloc::Global;
use vdm_kinds::OutOfMemory;

/// The place of a variable's value.
#[derive(Debug, Drop)]
pub enum Slot {
    /// No value was given yet.
    Unset,
    Held(Value),
}

impl Slot {
    /// A slot of its own with the same value, or none.
    pub fn copy(&self, alloc: Global) -> Result<Slot, OutOfMemory>
        ensures { IfOk result (λ s. s ≡ self.now) }
    {
        match self {
            Slot::Unset => Ok(Slot::Unset),
            Slot::Held(value) => Ok(Slot::Held(value.copy(alloc)?)),
        }
    }
}

impl PartialEq for Slot {
    ghost use Rattle.vdm_values.specs.Slots.{slot_code};
    ghost use Rattle.abstract_syntax.specs.SameBy.{same_by, same_by-laws};

    ghost eq = { same_by slot_code };

    ghost laws = { same_by-laws slot_code };

    #[tactic(auto, using(abstract_syntax::specs::SameBy::sameness))]
    fn eq(&self, other: &Slot) -> bool {
        match self {
            Slot::Unset => matches!(other, Slot::Unset),
            Slot::Held(value) => matches!(other, Slot::Held(held) if value == held),
        }
    }
}

impl Eq for Slot {
    ghost use Rattle.vdm_values.specs.Slots.{slot_code};
    ghost use Rattle.abstract_syntax.specs.SameBy.{same_by-equivalence};

    ghost laws = { same_by-equivalence slot_code };
}
