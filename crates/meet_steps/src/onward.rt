// What follows a pattern that was tried.

use step_data::{Action, Meeting};

/// What follows a pattern that was tried: the next one, or what is done.
pub(crate) enum Onward<'t> {
    Meets(Meeting<'t>),
    Ends(Action<'t>),
}
