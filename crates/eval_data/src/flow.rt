// What comes of a node.

use vdm_kinds::Place;
use vdm_values::{Slot, Value};

/// What comes of a node, the locals after it aside.
#[derive(Drop)]
pub enum Flow {
    /// A value, or none where a call gave none.
    Gave(Slot),
    /// A statement is done, and the next one follows.
    Next,
    /// The body is done, with a value or without.
    Returned(Slot),
    /// An exit with this value, at this place.
    Exited(Value, Place),
}
