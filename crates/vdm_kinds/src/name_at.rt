// Names with their places.

use crate::name::Name;
use crate::place::Place;

/// A name in a list of names, and where it stands: a fault of the name stands there.
#[derive(Clone, Copy, Debug, PartialEq, Eq)]
pub struct NameAt {
    pub name: Name,
    pub place: Place,
}

/// The name of a type, alone or behind the name of its class and a backquote. It begins where its node begins.
#[derive(Clone, Copy, Debug, PartialEq, Eq)]
pub struct TypeName {
    /// The class before the backquote, whose name stands where the node begins.
    pub class: Option<Name>,
    pub name: Name,
    /// Where the type's own name stands; without a class that is where the node begins.
    pub name_place: Place,
}
