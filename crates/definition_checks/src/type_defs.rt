// Types with their invariants.

ghost use Rattle.std.specs.Prelude.{◌≡◌, map, option_map, IfOk, OnOk};
ghost use Rattle.std.specs.List.{flat_map};
ghost use Rattle.abstract_syntax.specs.Classes.{FieldTree};
ghost use Rattle.expr_tree.specs.TypeDefView.{field_view, invariant_view, type_body_view, type_def_view};
ghost use Rattle.spec_checks.specs.Definitions.{body_form as form_of_body, body_type_faults, type_def_faults};
ghost use Rattle.class_checks.specs.Results.{first_among};
ghost use Rattle.class_checks.specs.TypeNames.{type_faults as faults_of_type};
ghost use Rattle.part_checks.specs.Below.check_scopes.specs.Told.{first_in, scope_view, spec_in, types_in};
ghost use Rattle.part_checks.specs.Below.definition_scopes.specs.Standing.{spec_at};
ghost use Rattle.definition_checks.specs.Parts.{class_of, invariant_in, maybe_invariant_in, type_def_in};

use class_checks::Reach;
use expr_tree::{Field, TypeBody, TypeDef, TypeInvariant};
use part_checks::handed::check_frames::Here;
use part_checks::handed::check_scopes::{Refusals, Scope, Setting};
use part_checks::handed::check_types::type_faults;
use part_checks::handed::definition_scopes::{Site, in_class};
use part_checks::{inside_parameter, refuse_condition_at, refuse_parameter};
use std::alloc::Global;
use type_forms::{Alt, Form};
use vdm_kinds::{Name, OutOfMemory};

/// Notes what is refused in the definition of a type.
pub fn refuse_type_def(
    site: Site<'_>,
    definition: &TypeDef,
    refusals: &mut Refusals,
) -> Result<(), OutOfMemory>
    ensures { OnOk result (first_in refusals.new ≡ first_among (first_in refusals.old) (type_def_faults (spec_at site.entry) site.entry.class (type_def_view definition.now))) }
{
    let scope = in_class(site.class, Reach::Pure);
    refuse_type_def_in(site, &scope, definition, refusals)
}

fn refuse_type_def_in(
    site: Site<'_>,
    scope: &Scope,
    definition: &TypeDef,
    refusals: &mut Refusals,
) -> Result<(), OutOfMemory>
    ensures { OnOk result (first_in refusals.new ≡ first_among (first_in refusals.old) (type_def_in (spec_at site.entry) (scope_view scope.now) (type_def_view definition.now))) }
{
    let setting = Setting {
        table: site.table,
        scope,
    };
    refuse_body(setting, &definition.body, refusals);
    refuse_maybe_invariant(site, scope, definition, refusals)
}

// The invariant of a type, where it has one.
fn refuse_maybe_invariant(
    site: Site<'_>,
    scope: &Scope,
    definition: &TypeDef,
    refusals: &mut Refusals,
) -> Result<(), OutOfMemory>
    ensures { OnOk result (first_in refusals.new ≡ first_among (first_in refusals.old) (maybe_invariant_in (spec_at site.entry) (scope_view scope.now) (form_of_body (spec_at site.entry) (class_of scope.now) definition.now.name (type_body_view definition.now.body)) (option_map invariant_view definition.now.invariant))) }
{
    match &definition.invariant {
        Some(invariant) => refuse_formed(site, scope, definition, invariant, refusals),
        None => Ok(()),
    }
}

// Its invariant, which is asked of what the type is.
fn refuse_formed(
    site: Site<'_>,
    scope: &Scope,
    definition: &TypeDef,
    invariant: &TypeInvariant,
    refusals: &mut Refusals,
) -> Result<(), OutOfMemory>
    ensures { OnOk result (first_in refusals.new ≡ first_among (first_in refusals.old) (invariant_in (spec_at site.entry) (scope_view scope.now) (form_of_body (spec_at site.entry) (class_of scope.now) definition.now.name (type_body_view definition.now.body)) (invariant_view invariant.now))) }
{
    let setting = Setting {
        table: site.table,
        scope,
    };
    let form = body_form(site.alloc, setting, definition.name, &definition.body)?;
    refuse_invariant(site, scope, &form, invariant, refusals)
}

// The types in what a type is.
fn refuse_body(setting: Setting<'_>, body: &TypeBody, refusals: &mut Refusals)
    ensures { first_in refusals.new ≡ first_among (first_in refusals.old) (body_type_faults (spec_in setting.entry) (types_in setting.entry) (type_body_view body.now)) }
{
    match body {
        TypeBody::Same(declared) => type_faults(setting, refusals, declared),
        TypeBody::Fields(fields) => refuse_fields(setting, fields.as_slice(), refusals),
    }
}

fn refuse_fields(setting: Setting<'_>, fields: &[Field], refusals: &mut Refusals)
    ensures { first_in refusals.new ≡ first_among (first_in refusals.old) (flat_map (λ (f : FieldTree). faults_of_type (spec_in setting.entry) (types_in setting.entry) f.declared) (map field_view fields.now)) }
{
    for field in fields {
        type_faults(setting, refusals, &field.declared);
    }
}

// The form of what the invariant of a type is asked of.
fn body_form(
    alloc: Global,
    setting: Setting<'_>,
    name: Name,
    body: &TypeBody,
) -> Result<Form, OutOfMemory>
    ensures { IfOk result (λ form. form ≡ form_of_body (spec_in setting.entry) (types_in setting.entry) name (type_body_view body.now)) }
{
    let class = setting.type_scope();
    match body {
        TypeBody::Same(declared) => setting.form_of(alloc, class, declared),
        TypeBody::Fields(_) => Form::only(alloc, Alt::Record { class, name }),
    }
}

// The invariant of a type whose values have this form.
fn refuse_invariant(
    site: Site<'_>,
    scope: &Scope,
    form: &Form,
    invariant: &TypeInvariant,
    refusals: &mut Refusals,
) -> Result<(), OutOfMemory>
    ensures { OnOk result (first_in refusals.new ≡ first_among (first_in refusals.old) (invariant_in (spec_at site.entry) (scope_view scope.now) form.now (invariant_view invariant.now))) }
{
    let here = Here {
        alloc: site.alloc,
        setting: Setting {
            table: site.table,
            scope,
        },
        locals: &scope.locals,
    };
    refuse_parameter(here, &invariant.pattern, refusals)?;
    let locals = inside_parameter(here, &scope.locals, form, &invariant.pattern)?;
    refuse_condition_at(site, scope, &locals, &invariant.condition, refusals)
}
