// Operators on their operands.

ghost use Rattle.std.specs.Prelude.{◌≡◌, ◌∷◌, [], IfOk};
ghost use Rattle.abstract_syntax.specs.Expressions.{no_exprs, one_expr};
ghost use Rattle.expr_tree.specs.View.{boxed_view};
ghost use Rattle.vdm_kinds.specs.Signs.{sign_operator};
ghost use Rattle.vdm_kinds.specs.declared.operator.Operator.TheVariants.{Interval};
ghost use Rattle.node_meaning.specs.Envs.{Locals};
ghost use Rattle.node_meaning.specs.Expressions.{prefixed_by};
ghost use Rattle.node_meaning.specs.Needs.{Setting};
ghost use Rattle.node_meaning.specs.Strict.{two_operands, strict};
ghost use Rattle.node_meaning.specs.Tasks.{evaluated};
ghost use Rattle.eval_data.specs.declared.frame.Use.TheVariants.{Operand, RightOperand, Operator as OnOperands};
ghost use Rattle.eval_data.specs.Parts.{here_of};
ghost use Rattle.eval_data.specs.Steps.{code_of, use_of};

use crate::outcome::outcome_step;
use eval_data::{Frame, Here, Step, Use};
use expr_tree::Expr;
use std::alloc::Global;
use strict_operators::{binary, unary};
use vdm_kinds::{Operator, OutOfMemory, Place, RunFault, Sign};
use vdm_values::Value;

/// A part is evaluated, and its value is used.
pub(crate) fn part_for<'t>(
    here: Here<'t>,
    tree: &'t Box<Expr>,
    used: Use<'t>,
    place: Place,
) -> Step<'t>
    ensures { (setting : Setting) (locals : Locals) → code_of setting locals result ≡ evaluated (here_of here.entry) locals (boxed_view tree.entry.now) place (use_of setting used.entry place) }
{
    Step::Part(here, tree, Frame::With(used, place))
}

/// The operator on its one operand.
pub fn operand<'t>(
    alloc: Global,
    operator: Operator,
    place: Place,
    a: Value,
) -> Result<Step<'t>, OutOfMemory>
    ensures { IfOk result (λ s. (setting : Setting) (locals : Locals) → code_of setting locals s ≡ use_of setting (Operand operator) place a locals) }
{
    outcome_step(unary(alloc, operator, &a), place)
}

/// The operator on both operands.
pub fn operators<'t>(
    alloc: Global,
    operator: Operator,
    place: Place,
    a: Value,
    b: Value,
) -> Result<Step<'t>, OutOfMemory>
    ensures { IfOk result (λ s. (setting : Setting) (locals : Locals) → code_of setting locals s ≡ use_of setting (OnOperands operator a) place b locals) }
{
    outcome_step(binary(alloc, operator, &a, &b), place)
}

/// The right operand, behind the left one.
pub fn right_operand<'t>(
    here: Here<'t>,
    right: &'t Box<Expr>,
    operator: Operator,
    place: Place,
    a: Value,
) -> Step<'t>
    ensures { (setting : Setting) (locals : Locals) → code_of setting locals result ≡ use_of setting (RightOperand here.entry right.entry operator) place a locals }
{
    part_for(here, right, Use::Operator(operator, a), place)
}

/// An operator before its operand.
pub fn prefix<'t>(here: Here<'t>, sign: Sign, tree: &'t Box<Expr>, place: Place) -> Step<'t>
    ensures { (setting : Setting) (locals : Locals) → code_of setting locals result ≡ prefixed_by (here_of here.entry) (sign_operator sign) (boxed_view tree.entry.now) place locals }
{
    match sign.operator() {
        Some(operator) => part_for(here, tree, Use::Operand(operator), place),
        None => Step::Fail(RunFault::Undefined, place),
    }
}

/// An operator between its operands: the left one is evaluated first.
pub(crate) fn between<'t>(
    here: Here<'t>,
    left: &'t Box<Expr>,
    operator: Operator,
    right: &'t Box<Expr>,
    place: Place,
) -> Step<'t>
    ensures { (setting : Setting) (locals : Locals) → code_of setting locals result ≡ strict (here_of here.entry) (two_operands operator) place (one_expr (boxed_view left.entry.now) (one_expr (boxed_view right.entry.now) no_exprs)) locals }
{
    part_for(here, left, Use::RightOperand(here, right, operator), place)
}

/// The set of the numbers from one to another.
pub fn range<'t>(here: Here<'t>, from: &'t Box<Expr>, to: &'t Box<Expr>, place: Place) -> Step<'t>
    ensures { (setting : Setting) (locals : Locals) → code_of setting locals result ≡ strict (here_of here.entry) (two_operands Interval) place (one_expr (boxed_view from.entry.now) (one_expr (boxed_view to.entry.now) no_exprs)) locals }
{
    between(here, from, Operator::Interval, to, place)
}
