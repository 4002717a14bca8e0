// Which locals were declared.

ghost use Rattle.std.specs.Prelude.{◌≡◌, IfOk};
ghost use Rattle.spec_checks.specs.Targets.{declared_too, hidden_by};
ghost use Rattle.stmt_scopes.specs.Standing.{declared_in};

use shared_names::SharedMap;
use std::alloc::Global;
use vdm_kinds::{Name, OutOfMemory};

/// Of each name, whether its newest local was declared by `dcl`, so that it may be assigned. A name that stands in it no more,
/// or with `false`, was not.
pub type Declared = SharedMap<bool>;

/// Whether the newest local of a name was declared.
pub fn is_declared(declared: &Declared, name: Name) -> bool
    ensures { result ≡ declared_in declared.now name }
{
    match declared.find(name) {
        Some(found) => *found,
        None => false,
    }
}

/// A local more that is declared.
pub fn declared_too(alloc: Global, declared: &Declared, name: Name) -> Result<Declared, OutOfMemory>
    ensures { IfOk result (λ more. declared_in more ≡ declared_too name (declared_in declared.now)) }
{
    declared.with(alloc, name, true)
}

/// What is left where patterns bind these names, which hide what was declared.
pub fn hidden_by(
    alloc: Global,
    declared: &Declared,
    names: &[Name],
) -> Result<Declared, OutOfMemory>
    ensures { IfOk result (λ left. declared_in left ≡ hidden_by names.now (declared_in declared.now)) }
{
    let mut left = declared.copy()?;
    for name in names {
        left = left.with(alloc, *name, false)?;
    }
    Ok(left)
}
