// What is applied to arguments.

ghost use Rattle.std.specs.Prelude.{◌≡◌, ◌∷◌, [], List, Option, map, option_map, if◌then◌else◌, IfOk};
ghost use Rattle.vdm_kinds.specs.declared.spec_fault.SpecFault.{SpecFault};
ghost use Rattle.form_meaning.specs.Forms.{any_form, no_form, no_forms};
ghost use Rattle.class_checks.specs.Callees.{function_callee as callee_of_function, operation_callee as callee_of_operation, operation_wants as wants_of_operation, parameter_forms as forms_of_parameters, refused_callee as callee_refused};
ghost use Rattle.class_checks.specs.Members.{result_form as form_of_result};
ghost use Rattle.class_checks.specs.Results.{refusal};
ghost use Rattle.type_forms.specs.Tree.{form_trees};
ghost use Rattle.class_checks.specs.TypeNames.{form_of};
ghost use Rattle.class_meaning.specs.Classes.{name_of_class};
ghost use Rattle.type_tree.specs.TypeView.{type_view};
ghost use Rattle.type_tree.specs.declared.type_expr.TypeExpr.{TypeExpr as Declared};
ghost use Rattle.vdm_tree.specs.ClassView.{function_view, operation_view};
ghost use Rattle.check_fields.specs.Below.check_scopes.specs.Told.{first_in, spec_in};
ghost use Rattle.check_calls.specs.Calling.{Calls};
ghost use Rattle.check_names.specs.Noting.{note, noted_as};
ghost use Rattle.check_fields.specs.Below.spec_table.specs.Meanings.{Owns};

use check_fields::handed::check_scopes::{Refusals, Setting};
use check_fields::handed::spec_table::Owner;
use check_names::{form_in, form_unless};
use std::alloc::Global;
use type_forms::Form;
use type_tree::TypeExpr;
use vdm_kinds::{OutOfMemory, Place, SpecKind};
use vdm_tree::{FunctionDef, OpDef};

/// What is applied to arguments.
#[derive(Drop)]
pub struct Callee {
    /// What each argument has to meet; one behind those that are listed may be of any form.
    pub wants: Vec<Form>,
    pub result: Form,
}

/// How something is called.
#[derive(Clone, Copy)]
pub struct Call {
    /// Where the expression before the arguments has its place.
    pub head_place: Place,
    /// The number of the arguments.
    pub count: usize,
    pub place: Place,
}

/// Refuses what is called: nothing is wanted of its arguments.
pub(crate) fn refused_callee(
    alloc: Global,
    refusals: &mut Refusals,
    kind: SpecKind,
    place: Place,
) -> Callee
    ensures { Calls (first_in refusals.old) (first_in refusals.new) result (callee_refused (refusal kind place ∷ [])) }
{
    refusals.refuse(kind, place);
    of_any_arguments(alloc, Form::any())
}

/// What wants nothing of its arguments.
pub(crate) fn of_any_arguments(alloc: Global, form: Form) -> Callee
    ensures wants { form_trees result.wants.items ≡ no_forms }
    ensures form { result.result ≡ form }
{
    Callee {
        wants: Vec::new(alloc),
        result: form,
    }
}

/// A function that is called, where this was noted of it.
pub(crate) fn function_callee(
    alloc: Global,
    setting: Setting<'_>,
    spoiled: bool,
    owner: Owner,
    function: &FunctionDef,
) -> Result<Callee, OutOfMemory>
    requires { Owns (spec_in setting) owner }
    ensures { IfOk result (λ callee. (before after : Option SpecFault) (refusals : List SpecFault) → note before refusals ≡ noted_as after spoiled → Calls before after callee (callee_of_function (spec_in setting.entry) refusals owner.number (function_view function.now))) }
{
    let wants = parameter_forms(alloc, setting, owner, function.parameters.as_slice())?;
    let result = form_unless(alloc, setting, spoiled, owner, &function.result_type)?;
    Ok(Callee { wants, result })
}

/// An operation that is called, where this was noted of it.
pub(crate) fn operation_callee(
    alloc: Global,
    setting: Setting<'_>,
    spoiled: bool,
    owner: Owner,
    operation: &OpDef,
) -> Result<Callee, OutOfMemory>
    requires { Owns (spec_in setting) owner }
    ensures { IfOk result (λ callee. (before after : Option SpecFault) (refusals : List SpecFault) → note before refusals ≡ noted_as after spoiled → Calls before after callee (callee_of_operation (spec_in setting.entry) refusals owner.number (operation_view operation.now))) }
{
    let wants = operation_wants(alloc, setting, owner, operation.parameters.as_slice())?;
    let result = result_form(alloc, setting, spoiled, owner, &operation.result_type)?;
    Ok(Callee { wants, result })
}

fn result_form(
    alloc: Global,
    setting: Setting<'_>,
    spoiled: bool,
    owner: Owner,
    declared: &Option<TypeExpr>,
) -> Result<Form, OutOfMemory>
    requires { Owns (spec_in setting) owner }
    ensures { IfOk result (λ form. form ≡ (if spoiled then any_form else form_of_result (spec_in setting.entry) owner.number (option_map type_view declared.now))) }
{
    match declared {
        Some(declared) => form_unless(alloc, setting, spoiled, owner, declared),
        None => Ok(nothing_unless(spoiled)),
    }
}

fn nothing_unless(spoiled: bool) -> Form
    ensures { result ≡ (if spoiled then any_form else no_form) }
{
    if spoiled {
        Form::any()
    } else {
        Form::nothing()
    }
}

/// What an operation wants of its arguments: those of `IO`, which is class 0, print what they get.
pub(crate) fn operation_wants(
    alloc: Global,
    setting: Setting<'_>,
    owner: Owner,
    parameters: &[TypeExpr],
) -> Result<Vec<Form>, OutOfMemory>
    requires { Owns (spec_in setting) owner }
    ensures { IfOk result (λ wants. form_trees wants.items ≡ wants_of_operation (spec_in setting.entry) owner.number (map type_view parameters.now)) }
{
    if owner.number == 0 {
        return Ok(Vec::new(alloc));
    }
    parameter_forms(alloc, setting, owner, parameters)
}

fn parameter_forms(
    alloc: Global,
    setting: Setting<'_>,
    owner: Owner,
    parameters: &[TypeExpr],
) -> Result<Vec<Form>, OutOfMemory>
    requires { Owns (spec_in setting) owner }
    ensures { IfOk result (λ wants. form_trees wants.items ≡ forms_of_parameters (spec_in setting.entry) owner.number (map type_view parameters.now)) }
{
    each_form(alloc, setting, owner, parameters)
}

fn each_form(
    alloc: Global,
    setting: Setting<'_>,
    owner: Owner,
    parameters: &[TypeExpr],
) -> Result<Vec<Form>, OutOfMemory>
    requires { Owns (spec_in setting) owner }
    ensures { IfOk result (λ wants. wants.items ≡ map (λ (t : Declared). form_of (spec_in setting.entry) (name_of_class (spec_in setting.entry) owner.number) (type_view t)) parameters.now) }
{
    let mut wants = Vec::with_capacity(alloc, parameters.len())?;
    for parameter in parameters {
        wants.push(form_in(alloc, setting, owner, parameter)?)?;
    }
    Ok(wants)
}
