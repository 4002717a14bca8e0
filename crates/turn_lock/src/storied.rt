//! What a value under a turn lock stands for.
ghost use Rattle.std.specs.Prelude.{List};

/// A value that stands for a list of notes and for the sum of their effects.
pub trait Storied {
    ghost use Rattle.std.specs.Prelude.{List};

    /// What was done to the value, and is noted.
    type Note;

    /// The notes that the value stands for, in their order.
    ghost story: { Self → List Self.Note };

    /// The rest of the value is what its notes come to.
    ghost adds_up: { Self → Type 0 };
}
