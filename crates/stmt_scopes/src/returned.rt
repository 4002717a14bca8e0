// What a body may give back.

use type_forms::Form;

/// What a body may give back.
#[derive(Drop)]
pub enum Returned {
    /// Whatever it likes, as in a thread.
    Anything,
    /// No value, as in an operation without a result.
    NoValue,
    /// A value of this form.
    AValue(Form),
}
