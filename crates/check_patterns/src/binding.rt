// What patterns bind.

ghost use Rattle.std.specs.Prelude.{◌≡◌, ◌++◌, map, IfOk};
ghost use Rattle.vdm_kinds.specs.declared.name.Name.{Name as NameOf};
ghost use Rattle.abstract_syntax.specs.Classes.{SpecTree};
ghost use Rattle.expr_tree.specs.View.{pattern_view};
ghost use Rattle.class_checks.specs.Patterns.{binds, binds_each};
ghost use Rattle.check_types.specs.Below.check_scopes.specs.Told.{spec_in, types_in};
ghost use Rattle.check_patterns.specs.Pending.{pending_binds};
ghost use Rattle.check_patterns.specs.Shown.{local_view, patterns_of};

use crate::bound::{all_bound, put, with_pattern};
use crate::local_form::LocalForm;
use crate::one_or_many::Patterns;
use crate::pending::{Binding, Pending};
use check_types::handed::check_scopes::Setting;
use expr_tree::Pattern;
use std::alloc::Global;
use type_forms::Form;
use vdm_kinds::OutOfMemory;

/// What the pattern binds of a value of the form, in text order.
pub fn binds(
    alloc: Global,
    setting: Setting<'_>,
    form: &Form,
    pattern: &Pattern,
) -> Result<Vec<LocalForm>, OutOfMemory>
    ensures { IfOk result (λ all. map local_view all.items ≡ binds (spec_in setting.entry) (types_in setting.entry) form.now (pattern_view pattern.now)) }
{
    let nothing = Binding {
        found: Vec::new(alloc),
        pending: Vec::new(alloc),
    };
    let form = form.copy()?;
    let binding = with_pattern(alloc, setting, nothing, form, pattern)?;
    all_bound(alloc, setting, binding)
}

/// What the patterns bind of a value of the form, behind what is found already, in text order.
pub fn binds_each(
    alloc: Global,
    setting: Setting<'_>,
    form: &Form,
    patterns: Patterns<'_>,
    found: Vec<LocalForm>,
) -> Result<Vec<LocalForm>, OutOfMemory>
    ensures { IfOk result (λ all. map local_view all.items ≡ map local_view found.items ++ binds_each (spec_in setting.entry) (types_in setting.entry) form.now (patterns_of patterns.entry)) }
{
    let pending = pending_of(form.copy()?, patterns);
    let nothing = Binding {
        found,
        pending: Vec::new(alloc),
    };
    let binding = put(nothing, pending)?;
    all_bound(alloc, setting, binding)
}

fn pending_of<'t>(form: Form, patterns: Patterns<'t>) -> Pending<'t>
    ensures { (spec : SpecTree) (class : NameOf) → pending_binds spec class result ≡ binds_each spec class form (patterns_of patterns.entry) }
{
    match patterns {
        Patterns::One(pattern) => Pending::One(form, pattern),
        Patterns::Many(patterns) => Pending::Each(form, patterns.as_slice()),
    }
}
