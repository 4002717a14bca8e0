// What a class inherits.

ghost use Rattle.std.specs.Prelude.{◌≡◌, IfOk};
ghost use Rattle.found_members.specs.Rows.{is_placed, AreCircles};

use crate::agreement::Agreement;
use std::alloc::Global;
use vdm_kinds::OutOfMemory;

/// What a class inherits.
#[derive(Drop)]
pub(crate) enum Inherited {
    /// It has no superclass.
    Nothing,
    /// What its one superclass, of this number, has.
    From(usize),
    /// What its superclasses agree on.
    Agreed(Agreement),
    /// Superclasses go in a circle; or what it inherits is not known yet.
    Circle,
}

/// Whether it is known what the class of a number inherits.
pub(crate) fn is_placed(rows: &[Inherited], k: usize) -> bool
    ensures { result ≡ is_placed rows.now k }
{
    match rows.get(k) {
        Some(Inherited::Nothing) | Some(Inherited::From(_)) | Some(Inherited::Agreed(_)) => true,
        Some(Inherited::Circle) | None => false,
    }
}

/// So many rows of which nothing is known.
pub(crate) fn circles(alloc: Global, count: usize) -> Result<Vec<Inherited>, OutOfMemory>
    ensures { IfOk result (λ rows. AreCircles count rows.items) }
{
    let mut rows = Vec::new(alloc);
    for _row in 0..count {
        rows.push(Inherited::Circle)?;
    }
    Ok(rows)
}
