//! Where threads sleep while they wait for their turns. Nothing rests on it but how long a turn takes to come: whoever
//! wakes looks again which number is served.
use std::hint;
use std::sync::Wait;
use std::sync::atomic::AtomicU64;
use std::sync::atomic::Ordering::SeqCst;

/// There are no more passes than this, so no two that wait have one bell.
const BELLS: u64 = 16;

/// How often one looks before one sleeps.
const LOOKS: u64 = 100;

/// A word for each number, by its remainder: 1 while the one who has that number may sleep.
#[derive(Drop)]
pub(crate) struct Bells {
    words: [AtomicU64; 16],
}

impl Bells {
    pub(crate) fn new() -> Bells {
        Bells {
            words: [
                AtomicU64::new(0),
                AtomicU64::new(0),
                AtomicU64::new(0),
                AtomicU64::new(0),
                AtomicU64::new(0),
                AtomicU64::new(0),
                AtomicU64::new(0),
                AtomicU64::new(0),
                AtomicU64::new(0),
                AtomicU64::new(0),
                AtomicU64::new(0),
                AtomicU64::new(0),
                AtomicU64::new(0),
                AtomicU64::new(0),
                AtomicU64::new(0),
                AtomicU64::new(0),
            ],
        }
    }

    fn of(&self, number: u64) -> &AtomicU64 {
        &self.words[(number % BELLS) as usize]
    }

    /// Passes the time after so many looks: at first at once, then asleep until the bell rings. The bell is hung up one
    /// look before the first sleep, so that it isn't missed.
    pub(crate) fn rest<R: Wait>(&self, rt: &R, number: u64, looks: u64) {
        if looks < LOOKS {
            hint::spin_loop();
        } else if self.of(number).swap(1, SeqCst) == 1 {
            self.of(number).park(rt, 1);
        }
    }

    /// Wakes the one who has the number, where it sleeps.
    pub(crate) fn ring(&self, number: u64) {
        if self.of(number).load(SeqCst) == 1 {
            self.of(number).store(0, SeqCst);
            self.of(number).wake_all();
        }
    }
}
