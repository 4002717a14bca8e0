// Names at their places.

ghost use Rattle.std.specs.Prelude.{◌≡◌};

use vdm_kinds::{Name, NameAt, Place};

/// The name, at this place.
pub fn named_at(name: Name, place: Place) -> NameAt
    ensures { result ≡ record { name = name; place = place } }
{
    NameAt { name, place }
}
