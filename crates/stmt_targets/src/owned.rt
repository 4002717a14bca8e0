// Whose variable a target is.

ghost use Rattle.std.specs.Prelude.{◌≡◌};
ghost use Rattle.spec_checks.specs.Targets.{first_owned, go_together, is_apart, owner_of};
ghost use Rattle.stmt_targets.specs.Naming.{owned_view};

use vdm_kinds::Access;

/// What a target names.
#[derive(Clone, Copy)]
pub(crate) enum Owned {
    Nothing,
    /// A local that was declared.
    Local,
    /// A variable of the object itself.
    Object,
    /// A static variable of the class of this number.
    ClassObject(usize),
}

/// Whose variable that is which a class of this number defines.
pub(crate) fn owner_of(owner: usize, access: Access) -> Owned
    ensures { owned_view result ≡ owner_of owner access }
{
    if access.is_static {
        Owned::ClassObject(owner)
    } else {
        Owned::Object
    }
}

/// Whether one assignment may write both: variables of the object itself, or static ones of one class.
fn go_together(first: Owned, other: Owned) -> bool
    ensures { result ≡ go_together (owned_view first) (owned_view other) }
{
    match (first, other) {
        (Owned::Object, Owned::Object) => true,
        (Owned::ClassObject(a), Owned::ClassObject(b)) => a == b,
        _ => false,
    }
}

/// Whether a target doesn't fit, where `first` was the first that is of the object or of a class.
pub(crate) fn is_apart(first: Owned, other: Owned) -> bool
    ensures { result ≡ is_apart (owned_view first) (owned_view other) }
{
    match (first, other) {
        (_, Owned::Nothing) => false,
        (Owned::Nothing, Owned::Local) => true,
        (Owned::Nothing, _) => false,
        _ => !go_together(first, other),
    }
}

/// The first that is of the object or of a class, with a target more.
pub(crate) fn first_owned(first: Owned, other: Owned) -> Owned
    ensures { owned_view result ≡ first_owned (owned_view first) (owned_view other) }
{
    match (first, other) {
        (Owned::Object, _) => first,
        (Owned::ClassObject(_), _) => first,
        (_, Owned::Object) => other,
        (_, Owned::ClassObject(_)) => other,
        _ => Owned::Nothing,
    }
}
