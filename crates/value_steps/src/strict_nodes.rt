// Nodes that evaluate all their parts, from left to right, and make a value of them, or tell something of their classes.

ghost use Rattle.std.specs.Prelude.{◌≡◌, IfOk, map};
ghost use Rattle.abstract_syntax.specs.Expressions.{no_exprs, one_expr};
ghost use Rattle.expr_tree.specs.View.{boxed_view, views_of, expr_trees, maplet_view, maplet_trees};
ghost use Rattle.node_meaning.specs.Envs.{Locals};
ghost use Rattle.node_meaning.specs.Expressions.{class_tested};
ghost use Rattle.node_meaning.specs.Needs.{Setting};
ghost use Rattle.node_meaning.specs.Strict.{strict, a_set, a_sequence, a_tuple, a_map, a_token, a_subsequence, a_component, maplet_exprs};
ghost use Rattle.eval_data.specs.Parts.{class_test_of, here_of, parts_of, strict_of};
ghost use Rattle.eval_data.specs.Steps.{code_of};

use crate::gathering::part_among;
use crate::outcome::make;
use crate::parts::{boxed, next_part};
use eval_data::{ClassTest, Collecting, Here, Parts, Step, Strict, Then};
use expr_tree::{Expr, Maplet};
use std::alloc::Global;
use vdm_kinds::{OutOfMemory, Place};

/// A node that is strict in these parts. Of no parts its value is made at once.
pub fn strict<'t>(
    alloc: Global,
    here: Here<'t>,
    what: Strict,
    place: Place,
    parts: Parts<'t>,
) -> Result<Step<'t>, OutOfMemory>
    ensures { IfOk result (λ s. (setting : Setting) (locals : Locals) → code_of setting locals s ≡ strict (here_of here.entry) (strict_of what) place (parts_of parts.entry) locals) }
{
    match next_part(parts) {
        None => make(alloc, what, place, Vec::new(alloc)),
        Some((tree, rest)) => {
            let collecting = Collecting {
                here,
                place,
                rest,
                done: Vec::new(alloc),
                then: Then::Make(what),
            };
            part_among(alloc, tree, collecting)
        }
    }
}

/// `{a, b}`
pub fn set_enumeration<'t>(
    alloc: Global,
    here: Here<'t>,
    elements: &'t Vec<Expr>,
    place: Place,
) -> Result<Step<'t>, OutOfMemory>
    ensures { IfOk result (λ s. (setting : Setting) (locals : Locals) → code_of setting locals s ≡ strict (here_of here.entry) a_set place (expr_trees (views_of elements.entry.now.items)) locals) }
{
    strict(alloc, here, Strict::Set, place, Parts::Items(elements, 0))
}

/// `[a, b]`
pub fn sequence_enumeration<'t>(
    alloc: Global,
    here: Here<'t>,
    items: &'t Vec<Expr>,
    place: Place,
) -> Result<Step<'t>, OutOfMemory>
    ensures { IfOk result (λ s. (setting : Setting) (locals : Locals) → code_of setting locals s ≡ strict (here_of here.entry) a_sequence place (expr_trees (views_of items.entry.now.items)) locals) }
{
    strict(alloc, here, Strict::Sequence, place, Parts::Items(items, 0))
}

/// `mk_(a, b)`
pub fn tuple_enumeration<'t>(
    alloc: Global,
    here: Here<'t>,
    parts: &'t Vec<Expr>,
    place: Place,
) -> Result<Step<'t>, OutOfMemory>
    ensures { IfOk result (λ s. (setting : Setting) (locals : Locals) → code_of setting locals s ≡ strict (here_of here.entry) a_tuple place (expr_trees (views_of parts.entry.now.items)) locals) }
{
    strict(alloc, here, Strict::Tuple, place, Parts::Items(parts, 0))
}

/// `{a |-> b, c |-> d}`
pub fn map_enumeration<'t>(
    alloc: Global,
    here: Here<'t>,
    maplets: &'t [Maplet],
    place: Place,
) -> Result<Step<'t>, OutOfMemory>
    ensures { IfOk result (λ s. (setting : Setting) (locals : Locals) → code_of setting locals s ≡ strict (here_of here.entry) a_map place (maplet_exprs (maplet_trees (map maplet_view maplets.entry.now))) locals) }
{
    strict(alloc, here, Strict::Map, place, Parts::Maplets(maplets))
}

/// `mk_token(a)`
pub fn token<'t>(
    alloc: Global,
    here: Here<'t>,
    inner: &'t Box<Expr>,
    place: Place,
) -> Result<Step<'t>, OutOfMemory>
    ensures { IfOk result (λ s. (setting : Setting) (locals : Locals) → code_of setting locals s ≡ strict (here_of here.entry) a_token place (one_expr (boxed_view inner.entry.now) no_exprs) locals) }
{
    strict(alloc, here, Strict::Token, place, Parts::One(inner))
}

/// `q(i, ..., j)`
pub fn subsequence<'t>(
    alloc: Global,
    here: Here<'t>,
    target: &'t Box<Expr>,
    from: &'t Box<Expr>,
    to: &'t Box<Expr>,
    place: Place,
) -> Result<Step<'t>, OutOfMemory>
    ensures { IfOk result (λ s. (setting : Setting) (locals : Locals) → code_of setting locals s ≡ strict (here_of here.entry) a_subsequence place (one_expr (boxed_view target.entry.now) (one_expr (boxed_view from.entry.now) (one_expr (boxed_view to.entry.now) no_exprs))) locals) }
{
    strict(
        alloc,
        here,
        Strict::Subsequence,
        place,
        Parts::Three(target, from, to),
    )
}

/// `t.#1`
pub fn component<'t>(
    alloc: Global,
    here: Here<'t>,
    target: &'t Box<Expr>,
    number: i128,
    place: Place,
) -> Result<Step<'t>, OutOfMemory>
    ensures { IfOk result (λ s. (setting : Setting) (locals : Locals) → code_of setting locals s ≡ strict (here_of here.entry) (a_component number) place (one_expr (boxed_view target.entry.now) no_exprs) locals) }
{
    strict(
        alloc,
        here,
        Strict::Component(number),
        place,
        Parts::One(target),
    )
}

/// A test of the classes of the values of these parts.
pub fn class_tested<'t>(
    alloc: Global,
    here: Here<'t>,
    test: ClassTest,
    place: Place,
    first: &'t Box<Expr>,
    rest: Parts<'t>,
) -> Result<Step<'t>, OutOfMemory>
    ensures { IfOk result (λ s. (setting : Setting) (locals : Locals) → code_of setting locals s ≡ class_tested setting.spec (here_of here.entry) (class_test_of test) place (one_expr (boxed_view first.entry.now) (parts_of rest.entry)) locals) }
{
    let collecting = Collecting {
        here,
        place,
        rest,
        done: Vec::new(alloc),
        then: Then::Classes(test),
    };
    part_among(alloc, boxed(first), collecting)
}
