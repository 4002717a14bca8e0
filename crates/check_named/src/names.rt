// Names and words that may be refused where they stand.

ghost use Rattle.std.specs.Prelude.{◌≡◌, IfOk};
ghost use Rattle.vdm_kinds.specs.declared.counter.Counter.{Counter as CounterOf};
ghost use Rattle.abstract_syntax.specs.Expressions.{current_time, history as history_of, qualified, result_value, self_object};
ghost use Rattle.expr_tree.specs.View.{view_of};
ghost use Rattle.class_checks.specs.Expressions.{check};
ghost use Rattle.class_checks.specs.Results.{gives};
ghost use Rattle.check_steps.specs.Below.check_scopes.specs.Told.{first_in, told};
ghost use Rattle.check_steps.specs.Below.check_frames.specs.Meant.{next_check, scope_here, spec_here};
ghost use Rattle.expr_topics.specs.Topics.{topic_of};
ghost use Rattle.expr_topics.specs.declared.topic.Topic.TheVariants.{Names};

use check_steps::handed::check_frames::{Here, Next};
use check_steps::handed::check_names::{
    beyond, history, read_name, read_old, read_qualified, read_result, read_self,
};
use check_steps::handed::check_scopes::Refusals;
use check_steps::handed::check_shapes::Kind;
use expr_tree::Expr;
use type_forms::Form;
use vdm_kinds::{Name, NameAt, OutOfMemory, Place};

/// A name or such a word has its form at once.
pub fn name_next<'t>(
    here: Here<'_>,
    expr: &'t Expr,
    refusals: &mut Refusals,
) -> Result<Next<'t>, OutOfMemory>
    requires { topic_of (view_of expr.now) ≡ Names }
    ensures { IfOk result (λ next. told (first_in refusals.old) (check (spec_here here.entry) (scope_here here.entry) (view_of expr.entry.now)) ≡ told (first_in refusals.new) (next_check here.entry.setting next)) }
{
    let form = name_form(here, expr, refusals)?;
    Ok(Next::Gives(form))
}

#[tactic(auto, unfolding(class_checks::specs::Expressions::check))]
fn name_form(here: Here<'_>, expr: &Expr, refusals: &mut Refusals) -> Result<Form, OutOfMemory>
    requires { topic_of (view_of expr.now) ≡ Names }
    ensures { IfOk result (λ form. told (first_in refusals.old) (check (spec_here here.entry) (scope_here here.entry) (view_of expr.now)) ≡ told (first_in refusals.new) (gives form)) }
{
    let Here {
        alloc,
        setting,
        locals,
    } = here;
    match expr {
        Expr::Name(name, place) => read_name(alloc, setting, locals, refusals, *name, *place),
        Expr::Old(name, place) => read_old(alloc, setting, locals, refusals, *name, *place),
        Expr::Qualified(class, name, name_place, place) => {
            qualified_form(here, refusals, *class, *name, *name_place, *place)
        }
        Expr::SelfObject(place) => self_form(here, refusals, *place),
        Expr::Result(place) => result_form(here, refusals, *place),
        Expr::Time(place) => time_form(here, refusals, *place),
        Expr::History(_, names, place) => count_form(here, refusals, names.as_slice(), *place),
        _ => Ok(Form::any()),
    }
}

fn qualified_form(
    here: Here<'_>,
    refusals: &mut Refusals,
    class: Name,
    name: Name,
    name_place: Place,
    place: Place,
) -> Result<Form, OutOfMemory>
    ensures { IfOk result (λ form. told (first_in refusals.old) (check (spec_here here.entry) (scope_here here.entry) (qualified class name name_place place)) ≡ told (first_in refusals.new) (gives form)) }
{
    read_qualified(
        here.alloc,
        here.setting,
        refusals,
        class,
        name,
        name_place,
        place,
    )
}

fn self_form(here: Here<'_>, refusals: &mut Refusals, place: Place) -> Result<Form, OutOfMemory>
    ensures { IfOk result (λ form. told (first_in refusals.old) (check (spec_here here.entry) (scope_here here.entry) (self_object place)) ≡ told (first_in refusals.new) (gives form)) }
{
    read_self(here.alloc, here.setting, refusals, place)
}

fn result_form(here: Here<'_>, refusals: &mut Refusals, place: Place) -> Result<Form, OutOfMemory>
    ensures { IfOk result (λ form. told (first_in refusals.old) (check (spec_here here.entry) (scope_here here.entry) (result_value place)) ≡ told (first_in refusals.new) (gives form)) }
{
    read_result(here.setting, refusals, place)
}

// `time`
fn time_form(here: Here<'_>, refusals: &mut Refusals, place: Place) -> Result<Form, OutOfMemory>
    ensures { IfOk result (λ form. told (first_in refusals.old) (check (spec_here here.entry) (scope_here here.entry) (current_time place)) ≡ told (first_in refusals.new) (gives form)) }
{
    beyond(here.setting, refusals, place);
    Kind::Number.form(here.alloc)
}

// `#fin(f)` and its kin.
fn count_form(
    here: Here<'_>,
    refusals: &mut Refusals,
    names: &[NameAt],
    place: Place,
) -> Result<Form, OutOfMemory>
    ensures { (counter : CounterOf) → IfOk result (λ form. told (first_in refusals.old) (check (spec_here here.entry) (scope_here here.entry) (history_of counter names.now place)) ≡ told (first_in refusals.new) (gives form)) }
{
    history(here.setting, refusals, names, place);
    Kind::Number.form(here.alloc)
}
