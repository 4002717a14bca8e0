//! A run: the locks are made, all lanes note, and the locks are closed.
ghost use Rattle.std.specs.Prelude.{◌≡◌, ◌<◌, ◌≤◌, IfSome, vec_len};
ghost use Rattle.lock_lanes.specs.Rows.{IsRow};

use crate::check::{Plan, has_all};
use lock_lanes::Row;
use std::alloc::Global;
use std::io::{self, ErrorKind};
use std::rt::Clock;
use std::sync::Wait;
use std::thread::Threads;
use std::time::Instant;

// The lanes and locks of a plan.
fn made(alloc: Global, plan: &Plan) -> Option<Row>
    requires { (0 < plan.now.lanes) × (plan.now.lanes ≤ 16) }
    ensures { IfSome result IsRow }
{
    let mut row = Row::new(alloc, plan.lanes)?;
    for _ in 0..plan.locks {
        row.add_lock(alloc, plan.room())?;
    }
    Some(row)
}

// Closes the locks, from the last to the first, and says whether their logs have all notes.
fn closed(alloc: Global, mut row: Row, plan: &Plan) -> Option<bool>
    requires { IsRow row }
{
    let mut whole = true;
    for behind in 0..plan.locks {
        let log = row.close_last(alloc)?;
        let lock = plan.locks - 1 - behind;
        whole = has_all(alloc, log.entries(), plan, lock)? && whole;
    }
    Some(whole)
}

/// Runs a plan, and says whether all notes are there in the end, and how many nanoseconds the lanes took.
pub fn timed<R: Threads + Wait + Clock + Sync>(
    rt: &R,
    alloc: Global,
    plan: &Plan,
) -> io::Result<(bool, u128)>
    requires { (0 < plan.now.lanes) × (plan.now.lanes ≤ 16) }
{
    let Some(mut row) = made(alloc, plan) else {
        return Err(ErrorKind::OutOfMemory.into());
    };
    let began = Instant::now(rt)?;
    if row.locks.len() > 0 {
        row.run(rt, u64::from(plan.notes));
    }
    let taken = began.elapsed(rt)?.as_nanos();
    match closed(alloc, row, plan) {
        Some(whole) => Ok((whole, taken)),
        None => Err(ErrorKind::OutOfMemory.into()),
    }
}
