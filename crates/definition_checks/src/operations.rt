// Operations.

ghost use Rattle.std.specs.Prelude.{◌≡◌, IfOk, OnOk, option_map};
ghost use Rattle.type_tree.specs.TypeView.{type_view};
ghost use Rattle.vdm_tree.specs.ClassView.{body_view, operation_view};
ghost use Rattle.vdm_tree.specs.StmtView.{boxed_stmt};
ghost use Rattle.shared_names.specs.Maps.{held};
ghost use Rattle.spec_checks.specs.Definitions.{operation_body_faults, operation_def_faults, operation_inner_faults, result_of, returned_of};
ghost use Rattle.class_checks.specs.Results.{first_among};
ghost use Rattle.spec_checks.specs.Statements.{check_stmt};
ghost use Rattle.spec_checks.specs.Targets.{nothing_declared};
ghost use Rattle.part_checks.specs.Below.check_scopes.specs.Told.{first_in, scope_view, spec_in, types_in};
ghost use Rattle.part_checks.specs.Below.check_frames.specs.Meant.{scope_here, spec_here};
ghost use Rattle.stmt_check.specs.Below.stmt_scopes.specs.Standing.{returned_view};
ghost use Rattle.part_checks.specs.Below.definition_scopes.specs.Standing.{spec_at, with_locals};
ghost use Rattle.definition_checks.specs.Parts.{class_of, operation_in};

use part_checks::handed::check_frames::Here;
use part_checks::handed::check_scopes::{Locals, Refusals, Scope, Setting};
use part_checks::handed::definition_scopes::{Site, afterwards, in_operation};
use part_checks::{
    inside_parameters, refuse_maybe_condition_at, refuse_maybe_type, refuse_parameters,
    refuse_types,
};
use std::alloc::Global;
use stmt_check::handed::stmt_scopes::Returned;
use stmt_check::refuse_stmt;
use type_forms::Form;
use type_tree::TypeExpr;
use vdm_kinds::OutOfMemory;
use vdm_tree::{Body, OpDef, Stmt};

/// Notes what is refused in an operation.
pub fn refuse_operation(
    site: Site<'_>,
    operation: &OpDef,
    refusals: &mut Refusals,
) -> Result<(), OutOfMemory>
    ensures { OnOk result (first_in refusals.new ≡ first_among (first_in refusals.old) (operation_def_faults (spec_at site.entry) site.entry.class (operation_view operation.now))) }
{
    let scope = in_operation(site.class, operation.access);
    refuse_operation_in(site, &scope, operation, refusals)
}

// Its types, the patterns of its parameters, and what stands inside these.
fn refuse_operation_in(
    site: Site<'_>,
    scope: &Scope,
    operation: &OpDef,
    refusals: &mut Refusals,
) -> Result<(), OutOfMemory>
    ensures { OnOk result (first_in refusals.new ≡ first_among (first_in refusals.old) (operation_in (spec_at site.entry) (scope_view scope.now) (operation_view operation.now))) }
{
    let here = Here {
        alloc: site.alloc,
        setting: Setting {
            table: site.table,
            scope,
        },
        locals: &scope.locals,
    };
    let types = operation.parameters.as_slice();
    let patterns = operation.patterns.as_slice();
    refuse_types(here.setting, types, refusals);
    refuse_maybe_type(here.setting, &operation.result_type, refusals);
    refuse_parameters(here, patterns, refusals)?;
    let locals = inside_parameters(here, types, patterns)?;
    refuse_inside(site, scope, &locals, operation, refusals)
}

// What stands inside the parameters.
fn refuse_inside(
    site: Site<'_>,
    scope: &Scope,
    locals: &Locals,
    operation: &OpDef,
    refusals: &mut Refusals,
) -> Result<(), OutOfMemory>
    ensures { OnOk result (first_in refusals.new ≡ first_among (first_in refusals.old) (operation_inner_faults (spec_at site.entry) (class_of scope.now) (with_locals scope.now (held locals.now)) (operation_view operation.now))) }
{
    let here = Here {
        alloc: site.alloc,
        setting: Setting {
            table: site.table,
            scope,
        },
        locals,
    };
    refuse_body(here, &operation.result_type, &operation.body, refusals)?;
    refuse_maybe_condition_at(site, scope, locals, &operation.pre, refusals)?;
    let form = result_form(site.alloc, here.setting, &operation.result_type)?;
    let after = afterwards(scope, form, true);
    refuse_maybe_condition_at(site, &after, locals, &operation.post, refusals)
}

// The form of the result, where there is a result.
fn result_form(
    alloc: Global,
    setting: Setting<'_>,
    declared: &Option<TypeExpr>,
) -> Result<Option<Form>, OutOfMemory>
    ensures { IfOk result (λ form. form ≡ result_of (spec_in setting.entry) (types_in setting.entry) (option_map type_view declared.now)) }
{
    match declared {
        Some(declared) => {
            let form = setting.form_of(alloc, setting.type_scope(), declared)?;
            Ok(Some(form))
        }
        None => Ok(None),
    }
}

// What the body may give back.
fn returned_by(
    alloc: Global,
    setting: Setting<'_>,
    declared: &Option<TypeExpr>,
) -> Result<Returned, OutOfMemory>
    ensures { IfOk result (λ back. returned_view back ≡ returned_of (spec_in setting.entry) (types_in setting.entry) (option_map type_view declared.now)) }
{
    match declared {
        Some(declared) => {
            let form = setting.form_of(alloc, setting.type_scope(), declared)?;
            Ok(Returned::AValue(form))
        }
        None => Ok(Returned::NoValue),
    }
}

// The body, where one is written.
fn refuse_body(
    here: Here<'_>,
    declared: &Option<TypeExpr>,
    body: &Body<Box<Stmt>>,
    refusals: &mut Refusals,
) -> Result<(), OutOfMemory>
    ensures { OnOk result (first_in refusals.new ≡ first_among (first_in refusals.old) (operation_body_faults (spec_here here.entry) (types_in here.entry.setting) (scope_here here.entry) (option_map type_view declared.now) (body_view boxed_stmt body.now))) }
{
    match body {
        Body::Written(body) => refuse_written(here, declared, body, refusals),
        Body::NotYetSpecified => Ok(()),
        Body::SubclassResponsibility => Ok(()),
    }
}

fn refuse_written(
    here: Here<'_>,
    declared: &Option<TypeExpr>,
    body: &Box<Stmt>,
    refusals: &mut Refusals,
) -> Result<(), OutOfMemory>
    ensures { OnOk result (first_in refusals.new ≡ first_among (first_in refusals.old) (check_stmt (spec_here here.entry) (record { within = scope_here here.entry; declared = nothing_declared; returned = returned_of (spec_here here.entry) (types_in here.entry.setting) (option_map type_view declared.now) }) (boxed_stmt body.now)).refusals) }
{
    let returned = returned_by(here.alloc, here.setting, declared)?;
    refuse_stmt(here, &returned, body, refusals)
}
