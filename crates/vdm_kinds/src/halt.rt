// How a call stops short of its answer.

ghost use Rattle.std.specs.Prelude.{◌≡◌};
ghost use Rattle.vdm_kinds.specs.declared.halt.OutOfMemory.{OutOfMemory};
ghost use Rattle.vdm_kinds.specs.declared.halt.Halt.TheVariants.{OutOfMemory as halt_OutOfMemory};

use std::alloc::{AllocError, AllocFailed};
use thiserror::Error;

/// A growth was refused. No clause ties it to the refusal: it is the one free answer.
#[derive(Clone, Copy, Debug, PartialEq, Eq, Error)]
#[error("out of memory")]
pub struct OutOfMemory;

impl From<AllocError> for OutOfMemory {
    fn from(_: AllocError) -> Self {
        OutOfMemory
    }
}

impl<T: Drop> From<AllocFailed<T>> for OutOfMemory {
    fn from(_: AllocFailed<T>) -> Self {
        OutOfMemory
    }
}

/// A fault of its own kind, or want of memory.
#[derive(Clone, Copy, Debug, PartialEq, Eq)]
pub enum Halt<F> {
    /// The call's own fault; want of memory is never told as one.
    Of(F),
    /// Not a fault of what was given: a growth was refused.
    OutOfMemory,
}

impl<F> From<OutOfMemory> for Halt<F> {
    ghost from_gives = { λ _ h. h ≡ halt_OutOfMemory };

    fn from(_: OutOfMemory) -> Self {
        Halt::OutOfMemory
    }
}

impl<F> From<AllocError> for Halt<F> {
    ghost from_gives = { λ _ h. h ≡ halt_OutOfMemory };

    fn from(_: AllocError) -> Self {
        Halt::OutOfMemory
    }
}

impl<F, T: Drop> From<AllocFailed<T>> for Halt<F> {
    ghost from_gives = { λ _ h. h ≡ halt_OutOfMemory };

    fn from(_: AllocFailed<T>) -> Self {
        Halt::OutOfMemory
    }
}
