// Where invariants stand, and parts of them.

ghost use Rattle.std.specs.Prelude.{◌≡◌, [], ◌∷◌, IfOk, MatchOption, drop, false, nat_lt, true};
ghost use Rattle.expr_tree.specs.View.{boxed_view, pattern_view};
ghost use Rattle.spec_table.specs.Tables.{table_spec};
ghost use Rattle.bind_steps.specs.Attempts.{attempted};
ghost use Rattle.node_meaning.specs.Matching.{met};
ghost use Rattle.plans.specs.Plans.{part};
ghost use Rattle.vdm_kinds.specs.declared.place.Place.{Place as PlaceOf};
ghost use Rattle.node_meaning.specs.Envs.{Locals, at, deeper as deeper_in, inside_class};
ghost use Rattle.node_meaning.specs.Needs.{Setting};
ghost use Rattle.node_meaning.specs.Tasks.{Code, expr_in};
ghost use Rattle.eval_data.specs.Parts.{boxed_list, here_of, nest_of};
ghost use Rattle.eval_data.specs.Steps.{frame_then};
ghost use Rattle.fit_steps.specs.Tests.{tested_code};

use crate::tested::Tested;
use bind_steps::{Attempt, bound_or};
use eval_data::{Frame, Here, Nest};
use expr_tree::{Expr, Pattern};
use spec_table::ClassTable;
use std::alloc::Global;
use vdm_kinds::{Name, OutOfMemory, Place};
use vdm_values::{Slot, Value, ValueList};

/// Inside of one test more, which is made at the place; none where sixteen are being made.
pub(crate) fn deeper(nest: Nest, place: Place) -> Option<Nest>
    ensures { MatchOption result (nat_lt nest.depth 16 ≡ false) (λ inner. (nat_lt nest.depth 16 ≡ true) × (nest_of inner ≡ deeper_in (nest_of nest) place)) }
{
    if nest.depth < 16 {
        Some(Nest {
            depth: nest.depth + 1,
            test: Some(nest.place(place)),
        })
    } else {
        None
    }
}

/// Where the invariants of the types of a class stand.
pub(crate) fn inside_class<'t>(class: Name, nest: Nest) -> Here<'t>
    ensures { here_of result ≡ inside_class class (nest_of nest) }
{
    Here {
        scope: Some(class),
        own: None,
        me: None,
        held: None,
        nest,
    }
}

/// The first of the expressions in brackets.
pub(crate) fn first_of<'t>(found: &[&'t Box<Expr>]) -> Option<&'t Box<Expr>>
    ensures { MatchOption result (boxed_list found.now ≡ []) (λ first. boxed_list found.now ≡ boxed_view first.now ∷ drop 1 (boxed_list found.now)) }
{
    found.first().copied()
}

/// A part of an invariant, and what is done with what comes of it.
pub(crate) fn part<'t>(here: Here<'t>, tree: &'t Box<Expr>, frame: Frame<'t>) -> Tested<'t>
    ensures { (setting : Setting) (place : PlaceOf) (locals : Locals) → tested_code setting place locals result ≡ part (expr_in (at (here_of here.entry) locals) (boxed_view tree.now)) (frame_then setting frame.entry) }
{
    Tested::Asks(here, tree, frame)
}

/// There are no locals.
pub(crate) fn cleared(alloc: Global, locals: &mut Vec<(Name, Slot)>)
    ensures { locals.new.items ≡ [] }
{
    *locals = Vec::new(alloc);
}

/// A pattern meets a value, with the values of the expressions in brackets in it.
pub(crate) fn bound_to(
    alloc: Global,
    table: &ClassTable,
    locals: &mut Vec<(Name, Slot)>,
    scope: Option<Name>,
    pattern: &Pattern,
    value: &Value,
    given: Vec<Value>,
) -> Result<Attempt, OutOfMemory>
    ensures { IfOk result (λ attempt. (place : PlaceOf) (matched missed : Locals → Code) → attempted place attempt matched missed locals.new.items ≡ met (table_spec table.now) scope place (pattern_view pattern.now ∷ []) (value.now ∷ []) matched missed given.items locals.old.items) }
{
    let given = ValueList::from_vec(given);
    bound_or(alloc, table, scope, &[pattern], &given, &[value], locals)
}
