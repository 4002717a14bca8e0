// A sequence or a map that is applied to an argument.

ghost use Rattle.std.specs.Prelude.{◌≡◌, ◌&&◌, not, List, Option, if◌then◌else◌, IfOk};
ghost use Rattle.vdm_kinds.specs.declared.spec_fault.SpecFault.{SpecFault};
ghost use Rattle.form_meaning.specs.Forms.{any_form, no_forms, one_form};
ghost use Rattle.form_meaning.specs.Parts.{at_argument, taken};
ghost use Rattle.class_checks.specs.Callees.{key_want as key_wanted, value_callee as callee_of_value};
ghost use Rattle.class_checks.specs.Operators.{sequence_or_map as a_sequence_or_map};
ghost use Rattle.class_checks.specs.Results.{first_among, form_unless};
ghost use Rattle.class_checks.specs.TypeNames.{meets, opened};
ghost use Rattle.type_forms.specs.Tree.{form_trees};
ghost use Rattle.check_fields.specs.Below.check_scopes.specs.Told.{first_in, spec_in};
ghost use Rattle.check_calls.specs.Calling.{Calls};

use crate::callee::{Call, Callee};
use check_fields::handed::check_scopes::{Refusals, Setting};
use check_names::spoiled_if;
use std::alloc::Global;
use type_forms::{Alt, Form, PartOf, taken};
use vdm_kinds::{OutOfMemory, SpecKind};

/// A value that is applied, by its form: a sequence to a number, a map to any key.
pub fn value_callee(
    alloc: Global,
    setting: Setting<'_>,
    refusals: &mut Refusals,
    form: &Form,
    call: Call,
) -> Result<Callee, OutOfMemory>
    ensures { IfOk result (λ callee. (before : Option SpecFault) (earlier : List SpecFault) → first_among before earlier ≡ first_in refusals.old → form_unless earlier form.now ≡ form.now → Calls before (first_in refusals.new) callee (callee_of_value (spec_in setting.entry) earlier form.now call.head_place call.count call.place)) }
{
    let fits = is_looked_up(alloc, setting, form)?;
    let wants = key_wants(alloc, setting, fits, form)?;
    refusals.refuse_if(!fits, SpecKind::NoCommonValue, call.head_place);
    let wrong = spoiled_if(refusals, call.count != 1, SpecKind::WrongArity, call.place);
    let result = looked_up(alloc, setting, fits, wrong, form)?;
    Ok(Callee { wants, result })
}

// Whether the form is that of a sequence or a map.
fn is_looked_up(alloc: Global, setting: Setting<'_>, form: &Form) -> Result<bool, OutOfMemory>
    ensures { IfOk result (λ fits. fits ≡ meets (spec_in setting.entry) form.now a_sequence_or_map) }
{
    let wanted = sequence_or_map(alloc)?;
    Ok(setting.meets(form, &wanted))
}

fn sequence_or_map(alloc: Global) -> Result<Form, OutOfMemory>
    ensures { IfOk result (λ form. form ≡ a_sequence_or_map) }
{
    let mut alts = Vec::with_capacity(alloc, 2)?;
    alts.push(Alt::Seq(Form::any()))?;
    alts.push(Alt::Map(Form::any(), Form::any()))?;
    Form::one_of(alloc, alts)
}

fn key_wants(
    alloc: Global,
    setting: Setting<'_>,
    fits: bool,
    form: &Form,
) -> Result<Vec<Form>, OutOfMemory>
    requires { fits ≡ meets (spec_in setting) form.now a_sequence_or_map }
    ensures { IfOk result (λ wants. form_trees wants.items ≡ one_form (key_wanted (spec_in setting.entry) form.now) no_forms) }
{
    let key = key_want(alloc, setting, fits, form)?;
    let mut wants = Vec::with_capacity(alloc, 1)?;
    wants.push(key)?;
    Ok(wants)
}

// A key of a map may be of any form, the place in a sequence is a number.
fn key_want(
    alloc: Global,
    setting: Setting<'_>,
    fits: bool,
    form: &Form,
) -> Result<Form, OutOfMemory>
    requires { fits ≡ meets (spec_in setting) form.now a_sequence_or_map }
    ensures { IfOk result (λ want. want ≡ key_wanted (spec_in setting.entry) form.now) }
{
    let map = Form::only(alloc, Alt::Map(Form::any(), Form::any()))?;
    if setting.meets(form, &map) || !fits {
        Ok(Form::any())
    } else {
        Form::only(alloc, Alt::Number)
    }
}

// What is found there, where something is.
fn looked_up(
    alloc: Global,
    setting: Setting<'_>,
    fits: bool,
    wrong: bool,
    form: &Form,
) -> Result<Form, OutOfMemory>
    ensures { IfOk result (λ found. found ≡ (if (fits && not wrong) then opened (spec_in setting.entry) (taken at_argument form.now) else any_form)) }
{
    if fits && !wrong {
        let part = taken(alloc, PartOf::AtArgument, form)?;
        setting.opened(alloc, &part)
    } else {
        Ok(Form::any())
    }
}
