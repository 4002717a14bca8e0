// New objects.

ghost use Rattle.std.specs.Prelude.{◌≡◌, IfOk};
ghost use Rattle.expr_tree.specs.View.{expr_trees, views_of};
ghost use Rattle.node_meaning.specs.Envs.{Locals};
ghost use Rattle.node_meaning.specs.Expressions.{created_with, creation_asked, places_of};
ghost use Rattle.node_meaning.specs.Needs.{Setting};
ghost use Rattle.eval_data.specs.Parts.{here_of};
ghost use Rattle.eval_data.specs.Steps.{code_of};
ghost use Rattle.value_steps.specs.Further.{gathered_code};

use crate::argument_list::places_of;
use crate::homes::may_act;
use eval_data::{After, Here, Need, Parts, Step, Then};
use expr_tree::Expr;
use std::alloc::Global;
use value_steps::{Gathered, collected};
use vdm_kinds::{Name, OutOfMemory, Place, RunFault};
use vdm_values::{Value, ValueList};

/// A new object of a class, where the node may make one: the arguments of its constructor come first.
pub fn created<'t>(
    alloc: Global,
    here: Here<'t>,
    class: Name,
    arguments: &'t Vec<Expr>,
    place: Place,
) -> Result<Gathered<'t>, OutOfMemory>
    ensures { IfOk result (λ g. (setting : Setting) (locals : Locals) → gathered_code setting locals g ≡ created_with setting (here_of here.entry) (expr_trees (views_of arguments.now.items)) class place locals) }
{
    if !may_act(here) {
        return Ok(Gathered::Part(Step::Fail(RunFault::Undefined, place)));
    }
    let then = Then::Creates(class, arguments);
    let done = Vec::new(alloc);
    collected(alloc, here, place, Parts::Items(arguments, 0), done, then)
}

/// The object is asked for, with the values of the arguments.
pub fn creation_asked<'t>(
    alloc: Global,
    class: Name,
    arguments: &Vec<Expr>,
    place: Place,
    values: Vec<Value>,
) -> Result<Step<'t>, OutOfMemory>
    ensures { IfOk result (λ s. (setting : Setting) (locals : Locals) → code_of setting locals s ≡ creation_asked setting class (places_of (expr_trees (views_of arguments.now.items))) place values.items locals) }
{
    let places = places_of(alloc, arguments)?;
    let args = ValueList::from_vec(values);
    let need = Need::New {
        class,
        args,
        places,
    };
    Ok(Step::Need(need, place, After::Value))
}
