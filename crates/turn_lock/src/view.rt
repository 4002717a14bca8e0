//! What a pass knows of its lock.
use std::collections::LinkedList;

/// Where a pass stands in the queue.
pub enum Stage {
    /// It has no turn number.
    Idle,
    /// It has this turn number, and did not see it served.
    Waiting(u64),
    /// It saw its turn number served, and has the value.
    Served(u64),
}

/// What a pass knows of its lock. No value of it is made.
pub struct View<E> {
    pub stage: Stage,
    /// For how many of the lock's passes it stands: one, all that are joined, or none once it is spent.
    pub passes: u64,
    /// How many turn numbers they drew.
    pub draws: u64,
    /// The notes that the value stood for when the lock was made.
    pub base: LinkedList<E>,
    /// The notes that it stood for when this pass last saw it.
    pub seen: LinkedList<E>,
    /// The pass's own notes, each with its place: how many notes were made before it since the lock was made.
    pub own: LinkedList<(u64, E)>,
}
