// What is selected of a value.

use vdm_kinds::Name;

/// What is selected of a value.
#[derive(Clone, Copy)]
pub enum Selected {
    /// `e.x`: the member of this name.
    Member(Name),
    /// ``e.C`x``: what the name means in the class, which stands first.
    OfClass(Name, Name),
}
