// What is done with what comes of a part, as it stands in actions and levels.

ghost use Rattle.std.specs.Prelude.{◌≡◌};

use crate::waiting::Waiting;

/// What is done with what comes of a part, whoever holds it.
pub struct Pending<'t> {
    pub waiting: Waiting<'t>,
}

// By hand, so that whoever drops it calls this, and does not prove again the dropping of all that may be waiting.
impl<'t> Drop for Pending<'t> {
    fn drop(self) {
        let Pending { waiting: _ } = self;
    }
}

impl<'t> Pending<'t> {
    /// What is done.
    pub fn into_waiting(self) -> Waiting<'t>
        ensures { result ≡ self.entry.waiting }
    {
        let Pending { waiting } = self;
        waiting
    }
}
