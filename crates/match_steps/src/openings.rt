// What `let`, `def` and `cases` do first.

ghost use Rattle.std.specs.Prelude.{◌≡◌, map};
ghost use Rattle.abstract_syntax.specs.Expressions.{let_in, def_in, cases_of};
ghost use Rattle.expr_tree.specs.View.{boxed_view, maybe_view, pattern_view, case_view, case_trees, defined_view, defined_trees};
ghost use Rattle.node_meaning.specs.Expressions.{expr_plan};
ghost use Rattle.node_meaning.specs.Needs.{Setting};
ghost use Rattle.eval_data.specs.Parts.{here_of};
ghost use Rattle.eval_data.specs.Steps.{code_of};

use crate::definitions::{defined, only_defined};
use crate::parts::part;
use eval_data::{Frame, Here, Step, Use};
use expr_tree::{Case, Defined, Expr, Pattern};
use vdm_kinds::{Name, Place};
use vdm_values::Slot;

/// `let p = a, q = b in e`
pub fn let_in<'t>(
    here: Here<'t>,
    locals: &Vec<(Name, Slot)>,
    definitions: &'t [Defined],
    body: &'t Box<Expr>,
    place: Place,
) -> Step<'t>
    ensures { (setting : Setting) → code_of setting locals.now.items result ≡ expr_plan setting (here_of here.entry) locals.now.items (let_in (defined_trees (map defined_view definitions.now)) (boxed_view body.now) place) }
{
    defined(here, locals.len(), definitions, body, place)
}

/// `def p = a in e`
pub fn def_in<'t>(
    here: Here<'t>,
    locals: &Vec<(Name, Slot)>,
    pattern: &'t Box<Pattern>,
    value: &'t Box<Expr>,
    body: &'t Box<Expr>,
    place: Place,
) -> Step<'t>
    ensures { (setting : Setting) → code_of setting locals.now.items result ≡ expr_plan setting (here_of here.entry) locals.now.items (def_in (pattern_view pattern.now.value) (boxed_view value.now) (boxed_view body.now) place) }
{
    only_defined(here, locals.len(), pattern, value, body, place)
}

/// `cases e: p, q -> a, others -> b end`
pub fn cases<'t>(
    here: Here<'t>,
    locals: &Vec<(Name, Slot)>,
    subject: &'t Box<Expr>,
    cases: &'t [Case],
    others: &'t Option<Box<Expr>>,
    place: Place,
) -> Step<'t>
    ensures { (setting : Setting) → code_of setting locals.now.items result ≡ expr_plan setting (here_of here.entry) locals.now.items (cases_of (boxed_view subject.now) (case_trees (map case_view cases.now)) (maybe_view others.now) place) }
{
    let used = Use::Subject(here, cases, others, locals.len());
    part(here, subject, Frame::With(used, place))
}
