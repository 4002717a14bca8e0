// Parts of a pattern that meets a value, and steps to a part.

ghost use Rattle.std.specs.Prelude.{◌≡◌, MatchOption, [], ◌∷◌, drop};
ghost use Rattle.expr_tree.specs.View.{boxed_view, pattern_view};
ghost use Rattle.plans.specs.Plans.{part};
ghost use Rattle.node_meaning.specs.Envs.{Locals, at};
ghost use Rattle.node_meaning.specs.Expressions.{within};
ghost use Rattle.node_meaning.specs.Needs.{Setting};
ghost use Rattle.node_meaning.specs.Tasks.{expr_in};
ghost use Rattle.eval_data.specs.Parts.{boxed_list, here_of};
ghost use Rattle.eval_data.specs.Steps.{code_of, frame_then, met_here, met_pattern};

use eval_data::{Frame, Here, Met, Step};
use expr_tree::{Expr, Pattern};

/// The pattern that meets a value.
pub(crate) fn met_pattern<'t>(met: Met<'t>) -> &'t Pattern
    ensures { pattern_view result.now ≡ met_pattern met.entry }
{
    match met {
        Met::Definition(_, definition) => definition.pattern,
        Met::Case(_, case) => case.pattern,
    }
}

/// Where its node stands.
pub(crate) fn met_here<'t>(met: Met<'t>) -> Here<'t>
    ensures { here_of result ≡ met_here met.entry }
{
    match met {
        Met::Definition(here, _) => here,
        Met::Case(here, _) => here,
    }
}

/// The first of the expressions in brackets.
pub(crate) fn first_of<'t>(found: &[&'t Box<Expr>]) -> Option<&'t Box<Expr>>
    ensures { MatchOption result (boxed_list found.now ≡ []) (λ first. boxed_list found.now ≡ boxed_view first.now ∷ drop 1 (boxed_list found.now)) }
{
    found.first().copied()
}

/// A part, and what is done with what comes of it.
pub(crate) fn part<'t>(here: Here<'t>, tree: &'t Box<Expr>, frame: Frame<'t>) -> Step<'t>
    ensures { (setting : Setting) (locals : Locals) → code_of setting locals result ≡ part (expr_in (at (here_of here.entry) locals) (boxed_view tree.now)) (frame_then setting frame.entry) }
{
    Step::Part(here, tree, frame)
}

/// An expression among the locals that were bound for it.
pub(crate) fn within<'t>(here: Here<'t>, count: usize, body: &'t Box<Expr>) -> Step<'t>
    ensures { (setting : Setting) (locals : Locals) → code_of setting locals result ≡ within (here_of here.entry) count (boxed_view body.now) locals }
{
    part(here, body, Frame::Cut(count))
}
