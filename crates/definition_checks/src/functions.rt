// Functions.

ghost use Rattle.std.specs.Prelude.{◌≡◌, OnOk};
ghost use Rattle.expr_tree.specs.View.{boxed_view};
ghost use Rattle.vdm_tree.specs.ClassView.{body_view, function_view};
ghost use Rattle.shared_names.specs.Maps.{held};
ghost use Rattle.spec_checks.specs.Definitions.{function_body_faults, function_faults, function_inner_faults};
ghost use Rattle.class_checks.specs.Results.{first_among};
ghost use Rattle.part_checks.specs.Below.check_scopes.specs.Told.{first_in, scope_view, types_in};
ghost use Rattle.part_checks.specs.Below.check_frames.specs.Meant.{scope_here, spec_here};
ghost use Rattle.part_checks.specs.Below.definition_scopes.specs.Standing.{spec_at, with_locals};
ghost use Rattle.definition_checks.specs.Parts.{class_of, function_in};

use class_checks::Reach;
use expr_tree::Expr;
use part_checks::handed::check_frames::Here;
use part_checks::handed::check_scopes::{Locals, Refusals, Scope, Setting};
use part_checks::handed::check_types::type_faults;
use part_checks::handed::definition_scopes::{Site, afterwards, in_class};
use part_checks::{
    inside_parameters, refuse_maybe_condition_at, refuse_parameters, refuse_types, refuse_wanted,
};
use type_forms::Form;
use vdm_kinds::OutOfMemory;
use vdm_tree::{Body, FunctionDef};

/// Notes what is refused in a function.
pub fn refuse_function(
    site: Site<'_>,
    function: &FunctionDef,
    refusals: &mut Refusals,
) -> Result<(), OutOfMemory>
    ensures { OnOk result (first_in refusals.new ≡ first_among (first_in refusals.old) (function_faults (spec_at site.entry) site.entry.class (function_view function.now))) }
{
    let scope = in_class(site.class, Reach::Pure);
    refuse_function_in(site, &scope, function, refusals)
}

// Its types, the patterns of its parameters, and what stands inside these.
fn refuse_function_in(
    site: Site<'_>,
    scope: &Scope,
    function: &FunctionDef,
    refusals: &mut Refusals,
) -> Result<(), OutOfMemory>
    ensures { OnOk result (first_in refusals.new ≡ first_among (first_in refusals.old) (function_in (spec_at site.entry) (scope_view scope.now) (function_view function.now))) }
{
    let here = Here {
        alloc: site.alloc,
        setting: Setting {
            table: site.table,
            scope,
        },
        locals: &scope.locals,
    };
    let types = function.parameters.as_slice();
    let patterns = function.patterns.as_slice();
    refuse_types(here.setting, types, refusals);
    type_faults(here.setting, refusals, &function.result_type);
    refuse_parameters(here, patterns, refusals)?;
    let locals = inside_parameters(here, types, patterns)?;
    refuse_inside(site, scope, &locals, function, refusals)
}

// What stands inside the parameters.
fn refuse_inside(
    site: Site<'_>,
    scope: &Scope,
    locals: &Locals,
    function: &FunctionDef,
    refusals: &mut Refusals,
) -> Result<(), OutOfMemory>
    ensures { OnOk result (first_in refusals.new ≡ first_among (first_in refusals.old) (function_inner_faults (spec_at site.entry) (class_of scope.now) (with_locals scope.now (held locals.now)) (function_view function.now))) }
{
    let here = Here {
        alloc: site.alloc,
        setting: Setting {
            table: site.table,
            scope,
        },
        locals,
    };
    let setting = here.setting;
    let wanted = setting.form_of(site.alloc, setting.type_scope(), &function.result_type)?;
    refuse_body(here, &wanted, &function.body, refusals)?;
    refuse_maybe_condition_at(site, scope, locals, &function.pre, refusals)?;
    let after = afterwards(scope, Some(wanted), false);
    refuse_maybe_condition_at(site, &after, locals, &function.post, refusals)
}

// The body, which has to meet the form of the result.
fn refuse_body(
    here: Here<'_>,
    wanted: &Form,
    body: &Body<Box<Expr>>,
    refusals: &mut Refusals,
) -> Result<(), OutOfMemory>
    ensures { OnOk result (first_in refusals.new ≡ first_among (first_in refusals.old) (function_body_faults (spec_here here.entry) (types_in here.entry.setting) (scope_here here.entry) wanted.now (body_view boxed_view body.now))) }
{
    match body {
        Body::Written(body) => refuse_wanted(here, wanted, body, refusals),
        Body::NotYetSpecified => Ok(()),
        Body::SubclassResponsibility => Ok(()),
    }
}
