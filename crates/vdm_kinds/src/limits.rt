// The bounds of a run that the command line sets.

/// How a run is bounded.
#[derive(Clone, Copy, Debug, PartialEq, Eq)]
pub struct Limits {
    /// Lanes, from 1 to 16.
    pub lanes: u32,
    /// Entries that a thread makes in one turn, from 1.
    pub slice: u64,
    /// Ticks of the clock.
    pub ticks: u64,
    /// Units of each thread: one for each tree node that it enters.
    pub steps: u64,
    /// Entries of the journal.
    pub entries: u64,
}
