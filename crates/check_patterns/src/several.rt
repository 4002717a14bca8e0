// The scopes behind several patterns.

ghost use Rattle.std.specs.Prelude.{◌≡◌, ◌++◌, ◌∷◌, [], map, IfOk};
ghost use Rattle.shared_names.specs.Maps.{held};
ghost use Rattle.expr_tree.specs.View.{pattern_views, pattern_trees};
ghost use Rattle.class_checks.specs.Patterns.{bindings_of, scopes_behind, scope_if, some_empty, with_each};
ghost use Rattle.check_types.specs.Below.check_scopes.specs.Told.{spec_in, scope_at, types_in};
ghost use Rattle.check_types.specs.Below.check_scopes.specs.declared.setting.Setting.{Setting as AnySetting};
ghost use Rattle.check_patterns.specs.Shown.{local_view, scopes_at, bindings_in, is_nil};

use crate::binding::binds;
use crate::local_form::LocalForm;
use crate::scoping::inside;
use check_types::handed::check_scopes::{Locals, Setting};
use expr_tree::Pattern;
use std::alloc::Global;
use type_forms::Form;
use vdm_kinds::OutOfMemory;

/// The locals of each scope in which what stands behind several patterns is checked.
pub fn scopes_behind(
    alloc: Global,
    setting: Setting<'_>,
    locals: &Locals,
    form: &Form,
    patterns: &Vec<Pattern>,
) -> Result<Vec<Locals>, OutOfMemory>
    ensures { IfOk result (λ all. scopes_at setting.entry all.items ≡ scopes_behind (scope_at setting.entry (held locals.now)) (bindings_of (spec_in setting.entry) (types_in setting.entry) form.now (pattern_trees (pattern_views patterns.now.items)))) }
{
    let bindings = bindings_of(alloc, setting, form, patterns.as_slice())?;
    scopes_of(alloc, locals, bindings.as_slice())
}

fn scopes_of(
    alloc: Global,
    locals: &Locals,
    bindings: &[Vec<LocalForm>],
) -> Result<Vec<Locals>, OutOfMemory>
    ensures { (setting : AnySetting) → IfOk result (λ all. scopes_at setting all.items ≡ scopes_behind (scope_at setting (held locals.now)) (bindings_in bindings.now)) }
{
    let scopes = scope_if(alloc, some_empty(bindings), locals)?;
    with_each(alloc, locals, bindings, scopes)
}

// What each pattern binds.
fn bindings_of(
    alloc: Global,
    setting: Setting<'_>,
    form: &Form,
    patterns: &[Pattern],
) -> Result<Vec<Vec<LocalForm>>, OutOfMemory>
    ensures { IfOk result (λ all. bindings_in all.items ≡ bindings_of (spec_in setting.entry) (types_in setting.entry) form.now (pattern_trees (pattern_views patterns.now))) }
{
    let mut bindings = Vec::with_capacity(alloc, patterns.len())?;
    for pattern in patterns {
        bindings.push(binds(alloc, setting, form, pattern)?)?;
    }
    Ok(bindings)
}

// Whether some bind nothing.
fn some_empty(bindings: &[Vec<LocalForm>]) -> bool
    ensures { result ≡ some_empty (bindings_in bindings.now) }
{
    for found in bindings {
        if is_empty(found.as_slice()) {
            return true;
        }
    }
    false
}

fn is_empty(found: &[LocalForm]) -> bool
    ensures { result ≡ is_nil (map local_view found.now) }
{
    found.len() == 0
}

// One scope for all that bind nothing.
fn scope_if(alloc: Global, wanted: bool, locals: &Locals) -> Result<Vec<Locals>, OutOfMemory>
    ensures { (setting : AnySetting) → IfOk result (λ all. scopes_at setting all.items ≡ scope_if wanted (scope_at setting (held locals.now))) }
{
    let mut scopes = Vec::new(alloc);
    if wanted {
        scopes.push(locals.copy()?)?;
    }
    Ok(scopes)
}

// Behind these, one scope for each that binds something.
fn with_each(
    alloc: Global,
    locals: &Locals,
    bindings: &[Vec<LocalForm>],
    scopes: Vec<Locals>,
) -> Result<Vec<Locals>, OutOfMemory>
    ensures { (setting : AnySetting) → IfOk result (λ all. scopes_at setting all.items ≡ scopes_at setting scopes.items ++ with_each (scope_at setting (held locals.now)) (bindings_in bindings.now)) }
{
    let mut scopes = scopes;
    for found in bindings {
        scopes = with_one(alloc, locals, found.as_slice(), scopes)?;
    }
    Ok(scopes)
}

// The scope of what binds something.
fn with_one(
    alloc: Global,
    locals: &Locals,
    found: &[LocalForm],
    scopes: Vec<Locals>,
) -> Result<Vec<Locals>, OutOfMemory>
    ensures { (setting : AnySetting) → IfOk result (λ all. scopes_at setting all.items ≡ scopes_at setting scopes.items ++ with_each (scope_at setting (held locals.now)) (map local_view found.now ∷ [])) }
{
    let mut scopes = scopes;
    if !is_empty(found) {
        scopes.push(inside(alloc, locals, found)?)?;
    }
    Ok(scopes)
}
