//! Whether a log has what the lanes noted.
use std::alloc::Global;

/// The notes of a run: how many lanes each noted how many entries, at how many locks in turn.
#[derive(Clone, Copy)]
pub struct Plan {
    pub lanes: u32,
    pub locks: u32,
    pub notes: u32,
}

impl Plan {
    /// The most entries that come to one lock.
    pub fn room(&self) -> usize {
        let each = u64::from(self.notes) / u64::from(self.locks.max(1));
        u64::from(self.lanes).saturating_mul(each + 1) as usize
    }
}

/// Whether the log of the lock with this index has each lane's entries, each once and in the lane's order, and no other.
/// None where there is no memory.
pub fn has_all(alloc: Global, entries: &[u64], plan: &Plan, lock: u32) -> Option<bool> {
    let mut next = Vec::from_elem(alloc, u64::from(lock), plan.lanes as usize).ok()?;
    for entry in entries {
        let lane = (*entry >> 32) as usize;
        let number = *entry & 0xffff_ffff;
        if lane >= next.len() || number != next[lane] {
            return Some(false);
        }
        next[lane] = number.saturating_add(u64::from(plan.locks));
    }
    Some(next.iter().all(|number| *number >= u64::from(plan.notes)))
}
