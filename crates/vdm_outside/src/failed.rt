// The one fault of the outside.

use thiserror::Error;

/// A call of the outside failed. Want of memory is never told as this.
#[derive(Clone, Copy, Debug, PartialEq, Eq, Error)]
#[error("the outside failed")]
pub struct Failed;
