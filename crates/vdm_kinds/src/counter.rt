// The history counters of operations.

/// What is counted of an operation's history on an object.
#[derive(Clone, Copy, Debug, PartialEq, Eq)]
pub enum Counter {
    /// `#req`: its requests.
    Requests,
    /// `#act`: its activations.
    Activations,
    /// `#fin`: its finishes.
    Finishes,
    /// `#active`: what was activated and is not finished.
    Active,
    /// `#waiting`: what was requested and is not activated.
    Waiting,
}
