// Names that are refused.

ghost use Rattle.std.specs.Prelude.{◌≡◌, ◌&&◌, not, nat_eq, IfOk, OnOk};
ghost use Rattle.vdm_kinds.specs.declared.spec_kind.SpecKind.TheVariants.{WrongArity, Duplicate};
ghost use Rattle.table_faults.specs.Firsts.{in_order, refusal as refusal_at, refused_if as refusal_if, with_name};
ghost use Rattle.table_faults.specs.Known.{known_names};

use std::collections::HashSet;
use vdm_kinds::{Name, OutOfMemory, Place, SpecFault, SpecKind};

pub(crate) fn refusal(kind: SpecKind, place: Place) -> SpecFault
    ensures { result ≡ refusal_at kind place }
{
    SpecFault { kind, place }
}

/// A refusal, where it is one.
pub(crate) fn refused_if(refused: bool, kind: SpecKind, place: Place) -> Option<SpecFault>
    ensures { result ≡ refusal_if refused kind place }
{
    if refused {
        Some(refusal(kind, place))
    } else {
        None
    }
}

/// What is refused of the head of a definition, in text order: that its patterns are not as many as its parameters, at its first
/// token, and that its name is there already. Where it begins at its name the less number comes first.
pub(crate) fn head_fault(
    fits: bool,
    clashes: bool,
    place: Place,
    name_place: Place,
) -> Option<SpecFault>
    ensures { result ≡ in_order (nat_eq place.line name_place.line && nat_eq place.column name_place.column) (refusal_if (not fits) WrongArity place) (refusal_if clashes Duplicate name_place) }
{
    let number = refused_if(!fits, SpecKind::WrongArity, place);
    let clash = refused_if(clashes, SpecKind::Duplicate, name_place);
    if place.line == name_place.line && place.column == name_place.column {
        clash.or(number)
    } else {
        number.or(clash)
    }
}

/// Notes a name, and tells whether it was there before.
pub(crate) fn note(names: &mut HashSet<u32>, name: Name) -> Result<bool, OutOfMemory>
    ensures known { IfOk result (λ known. known ≡ known_names names.old name) }
    ensures noted { OnOk result (known_names names.new ≡ with_name (known_names names.old) name) }
{
    Ok(!names.insert(name.0)?)
}
