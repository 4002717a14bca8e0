// What is done with a choice that the patterns match.

ghost use Rattle.std.specs.Prelude.{◌≡◌, IfOk};
ghost use Rattle.abstract_syntax.specs.Expressions.{one_expr};
ghost use Rattle.expr_tree.specs.View.{boxed_view};
ghost use Rattle.plans.specs.Plans.{part};
ghost use Rattle.node_meaning.specs.Choosing.{by_truth, next_choice};
ghost use Rattle.node_meaning.specs.Envs.{Locals, at};
ghost use Rattle.node_meaning.specs.Matching.{decided};
ghost use Rattle.node_meaning.specs.Needs.{Setting};
ghost use Rattle.node_meaning.specs.Strict.{collected};
ghost use Rattle.node_meaning.specs.Tasks.{expr_in, cut_to};
ghost use Rattle.eval_data.specs.Parts.{elements_of, first_choice, here_of, parts_of, search_of};
ghost use Rattle.eval_data.specs.Steps.{choose_behind, code_of};

use crate::parts::{collecting_part, part_of};
use eval_data::{Elements, Frame, Parts, Search, Step, Then, TruthUse, Use};
use expr_tree::Expr;
use std::alloc::Global;
use std::mem::replace;
use vdm_kinds::OutOfMemory;
use vdm_values::Value;

/// The condition decides on the choice.
pub(crate) fn decides<'t>(search: Box<Search<'t>>, condition: &'t Box<Expr>) -> Step<'t>
    ensures { (setting : Setting) (locals : Locals) → code_of setting locals result ≡ decided (here_of search.entry.value.here) locals (boxed_view condition.now) search.entry.value.place (by_truth (search_of search.entry.value) (first_choice search.entry.value) search.entry.value.done.items (choose_behind setting.spec search.entry.value 1)) }
{
    let here = search.here;
    let place = search.place;
    let choice = Use::Truth(TruthUse::Choice(search));
    part_of(here, condition, Frame::With(choice, place))
}

/// The expression for the first choice that fulfils the condition.
pub(crate) fn taken<'t>(search: Box<Search<'t>>, body: &'t Box<Expr>) -> Step<'t>
    ensures { (setting : Setting) (locals : Locals) → code_of setting locals result ≡ part (expr_in (at (here_of search.entry.value.here) locals) (boxed_view body.now)) (cut_to search.entry.value.count) }
{
    part_of(search.here, body, Frame::Cut(search.count))
}

/// What a comprehension evaluates for the choice, behind the values that the search collected; then the search goes on.
pub(crate) fn first_element<'t>(
    alloc: Global,
    search: Box<Search<'t>>,
    elements: Elements<'t>,
) -> Result<Step<'t>, OutOfMemory>
    ensures { IfOk result (λ s. (setting : Setting) (locals : Locals) → code_of setting locals s ≡ collected (here_of search.entry.value.here) search.entry.value.place (elements_of elements.entry) search.entry.value.done.items (next_choice (search_of search.entry.value) (choose_behind setting.spec search.entry.value 1)) locals) }
{
    let mut search = search;
    search.choices.advance();
    let done = replace(&mut search.done, Vec::new(alloc));
    element_of(alloc, search, done, elements)
}

// An element, or a key and its value, behind these values.
fn element_of<'t>(
    alloc: Global,
    search: Box<Search<'t>>,
    done: Vec<Value>,
    elements: Elements<'t>,
) -> Result<Step<'t>, OutOfMemory>
    ensures { IfOk result (λ s. (setting : Setting) (locals : Locals) → code_of setting locals s ≡ collected (here_of search.entry.value.here) search.entry.value.place (elements_of elements.entry) done.items (next_choice (search_of search.entry.value) (choose_behind setting.spec search.entry.value 0)) locals) }
{
    match elements {
        Elements::One(element) => element_part(alloc, search, done, element, Parts::None),
        Elements::Two(key, held) => element_part(alloc, search, done, key, Parts::One(held)),
    }
}

// The first of the expressions as a part.
fn element_part<'t>(
    alloc: Global,
    search: Box<Search<'t>>,
    done: Vec<Value>,
    first: &'t Box<Expr>,
    rest: Parts<'t>,
) -> Result<Step<'t>, OutOfMemory>
    ensures { IfOk result (λ s. (setting : Setting) (locals : Locals) → code_of setting locals s ≡ collected (here_of search.entry.value.here) search.entry.value.place (one_expr (boxed_view first.now) (parts_of rest.entry)) done.items (next_choice (search_of search.entry.value) (choose_behind setting.spec search.entry.value 0)) locals) }
{
    let here = search.here;
    let place = search.place;
    let then = Then::NextChoice(search);
    collecting_part(alloc, here, place, first, rest, done, then)
}
