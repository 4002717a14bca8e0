// Where a statement is checked.

ghost use Rattle.std.specs.Prelude.{◌≡◌, IfOk};
ghost use Rattle.shared_names.specs.Maps.{held};
ghost use Rattle.spec_checks.specs.Statements.{moved};
ghost use Rattle.check_frames.specs.Below.check_scopes.specs.Told.{scope_at};
ghost use Rattle.stmt_scopes.specs.Standing.{standing_of, stands_here};

use crate::declaring::{Declared, hidden_by};
use crate::returned::Returned;
use crate::standing::Standing;
use check_frames::Here;
use check_frames::handed::check_scopes::Locals;
use vdm_kinds::{Name, OutOfMemory};

/// Where a statement is checked: where its expressions are, which locals were declared, and what its body may give back.
#[derive(Clone, Copy)]
pub struct Stands<'a> {
    pub here: Here<'a>,
    pub declared: &'a Declared,
    pub returned: &'a Returned,
}

/// The same, to be kept.
pub fn kept(stands: Stands<'_>) -> Result<Standing, OutOfMemory>
    ensures { IfOk result (λ standing. standing_of stands.entry standing ≡ stands_here stands.entry) }
{
    let locals = stands.here.locals.copy()?;
    let declared = stands.declared.copy()?;
    Ok(Standing { locals, declared })
}

/// Where these locals are, of which patterns bind those of the names.
pub fn moved(stands: Stands<'_>, locals: Locals, names: &[Name]) -> Result<Standing, OutOfMemory>
    ensures { IfOk result (λ standing. standing_of stands.entry standing ≡ moved (stands_here stands.entry) (scope_at stands.entry.here.setting (held locals)) names.now) }
{
    let declared = hidden_by(stands.here.alloc, stands.declared, names)?;
    Ok(Standing { locals, declared })
}
