// What a run answers a thread.

use crate::host_answer::HostAnswer;
use vdm_values::Slot;

/// The answer to a question. Which answers fit a question its kind decides.
#[derive(Debug, Drop)]
pub enum Answer {
    /// What was asked is done, and there is nothing to tell.
    Done,
    /// The number of the object that was made.
    Object(u32),
    /// What the variable that was read has.
    Slot(Slot),
    /// The write or the start was refused.
    Refused,
    /// The number of the fault with which permission failed.
    Inner(u32),
    /// What the host function answered.
    Host(HostAnswer),
    /// How many ticks there were.
    Ticks(u64),
}
