//! Locks in a row, and the lanes that note at them.
ghost use Rattle.std.specs.Prelude.{◌≡◌, ◌<◌, ◌≤◌, All, IfSome, vec_len};

use crate::lane::{Lane, give_all, take_all};
use crate::log::Log;
use std::alloc::Global;
use std::sync::Wait;
use std::thread::{Threads, for_each_mut};
use turn_lock::TurnLock;

#[derive(Drop)]
pub struct Row {
    pub locks: Vec<TurnLock<Log>>,
    pub lanes: Vec<Lane>,
}

impl Row {
    ghost use Rattle.lock_lanes.specs.Rows.{IsRow};

    /// So many lanes and no lock. None where there is no memory.
    pub fn new(alloc: Global, count: u32) -> Option<Row>
        ensures { IfSome result (λ row. IsRow row × (vec_len row.lanes ≡ count)) }
    {
        let mut lanes = Vec::new(alloc);
        for number in 0..count {
            let lane = Lane {
                number: u64::from(number),
                passes: Vec::new(alloc),
            };
            let Ok(()) = lanes.push(lane) else {
                return None;
            };
        }
        Some(Row {
            locks: Vec::new(alloc),
            lanes,
        })
    }

    /// Adds a lock over a log with this room, of which each lane has a pass.
    pub fn add_lock(&mut self, alloc: Global, room: usize) -> Option<()>
        requires row { IsRow self.old }
        requires lanes { (0 < vec_len self.old.lanes) × (vec_len self.old.lanes ≤ 16) }
        ensures len { vec_len self.new.lanes ≡ vec_len self.old.lanes }
        ensures row { IfSome result (λ _. IsRow self.new) }
    {
        let log = Log::new(alloc, room).ok()?;
        let Ok((lock, passes)) = TurnLock::new(alloc, log, self.lanes.len() as u32) else {
            return None;
        };
        give_all(&mut self.lanes, self.locks.as_slice(), &lock, passes)?;
        let Ok(()) = self.locks.push(lock) else {
            return None;
        };
        Some(())
    }

    /// Each lane notes so many entries, in a thread of its own.
    pub fn run<R: Threads + Wait + Sync>(&mut self, rt: &R, notes: u64)
        requires row { IsRow self.old }
        requires some { 0 < vec_len self.old.locks }
        ensures row { IsRow self.new }
    {
        let locks = self.locks.as_slice();
        for_each_mut(
            rt,
            self.lanes.as_mut_slice(),
            16,
            &|_, lane| lane.run(rt, locks, notes),
        );
    }

    /// Closes the last lock. None where there is none, or no memory.
    pub fn close_last(&mut self, alloc: Global) -> Option<Log>
        requires row { IsRow self.old }
        ensures len { vec_len self.new.lanes ≡ vec_len self.old.lanes }
        ensures row { IfSome result (λ _. IsRow self.new) }
    {
        let lock = self.locks.pop()?;
        let passes = take_all(alloc, &mut self.lanes, self.locks.as_slice(), &lock)?;
        Some(lock.close(passes))
    }
}
