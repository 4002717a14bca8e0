// The locals inside what binds names.

ghost use Rattle.std.specs.Prelude.{◌≡◌, map, IfOk};
ghost use Rattle.shared_names.specs.Maps.{held};
ghost use Rattle.class_checks.specs.Scopes.{all_bound, bound_too};
ghost use Rattle.check_patterns.specs.Shown.{local_view};

use crate::local_form::LocalForm;
use check_types::handed::check_scopes::Locals;
use std::alloc::Global;
use vdm_kinds::OutOfMemory;

/// The locals inside what binds these.
pub fn inside(alloc: Global, locals: &Locals, found: &[LocalForm]) -> Result<Locals, OutOfMemory>
    ensures { IfOk result (λ all. held all ≡ all_bound (map local_view found.now) (held locals.now)) }
{
    let mut all = locals.copy()?;
    for local in found {
        all = with_local(alloc, &all, local)?;
    }
    Ok(all)
}

fn with_local(alloc: Global, locals: &Locals, local: &LocalForm) -> Result<Locals, OutOfMemory>
    ensures { IfOk result (λ all. held all ≡ bound_too (local_view local.now) (held locals.now)) }
{
    let form = local.form.copy()?;
    locals.with(alloc, local.name, form)
}
