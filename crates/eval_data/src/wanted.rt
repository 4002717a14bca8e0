// Whether a value is wanted.

/// Whether a call's value is wanted.
#[derive(Clone, Copy)]
pub enum Wanted {
    Value,
    Nothing,
}
