//! Answers requests about locks that threads take in turns: each line of standard input is one, and its answer a line.
//!
//! `check LANES LOCKS NOTES` has so many threads make so many notes each, at one lock after the other, and says `all`
//! where every note is there in the end, each lane's in its order. `time` does the same, and says the nanoseconds too.
//! `count TURNS` has two threads raise a count in so many turns each, and says the count and what each of them added.
#![tactic(auto)]

mod check;
mod runs;

use check::Plan;
use lock_lanes::count_by_two;
use std::alloc::Global;
use std::io::{self, BufRead, BufReader, ErrorKind, Print};
use std::rt::Clock;
use std::sync::Wait;
use std::thread::Threads;

fn main(rt: HostRuntime) -> io::Result<()> {
    for line in BufReader::new(rt.alloc(), rt.reader())?.lines(rt.alloc()) {
        let line = line?;
        answer(&rt, rt.alloc(), line.as_str())?;
    }
    Ok(())
}

// Prints the answer to one request.
fn answer<R: Print + Threads + Wait + Clock + Sync>(
    rt: &R,
    alloc: Global,
    line: &str,
) -> io::Result<()> {
    let (what, rest) = line.split_once(' ').unwrap_or(("", ""));
    match what {
        "count" => count(rt, alloc, rest),
        "check" => run(rt, alloc, rest, false),
        "time" => run(rt, alloc, rest, true),
        _ => println!(rt; "unreadable"),
    }
}

fn count<R: Print + Threads + Wait + Sync>(rt: &R, alloc: Global, turns: &str) -> io::Result<()> {
    let Ok(turns) = turns.parse::<u32>() else {
        return println!(rt; "unreadable");
    };
    match count_by_two(rt, alloc, turns) {
        Some((count, first, second)) => println!(rt; "{count} {first} {second}"),
        None => Err(ErrorKind::OutOfMemory.into()),
    }
}

// The plan that three numbers make, where there are as many lanes and locks as may be.
fn plan_of(text: &str) -> Option<Plan> {
    let (lanes, rest) = text.split_once(' ')?;
    let (locks, notes) = rest.split_once(' ')?;
    Some(Plan {
        lanes: lanes.parse::<u32>().ok()?,
        locks: locks.parse::<u32>().ok()?,
        notes: notes.parse::<u32>().ok()?,
    })
}

fn run<R: Print + Threads + Wait + Clock + Sync>(
    rt: &R,
    alloc: Global,
    asked: &str,
    timed: bool,
) -> io::Result<()> {
    let Some(plan) = plan_of(asked) else {
        return println!(rt; "unreadable");
    };
    if plan.lanes == 0 || plan.lanes > 16 {
        return println!(rt; "unreadable");
    }
    let (whole, taken) = runs::timed(rt, alloc, &plan)?;
    let said = if whole { "all" } else { "lost" };
    if timed {
        println!(rt; "{said} {taken}")
    } else {
        println!(rt; "{said}")
    }
}
