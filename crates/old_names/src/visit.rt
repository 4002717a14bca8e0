// One step of a walk: what stands in a part comes next.

ghost use Rattle.std.specs.Prelude.{◌≡◌, ◌++◌, IfOk, OnOk};
ghost use Rattle.stmt_meaning.specs.Olds.{olds_in, olds_in_exprs, olds_in_patterns};
ghost use Rattle.expr_tree.specs.View.{view_of, views_of, expr_trees, pattern_views, pattern_trees};
ghost use Rattle.old_names.specs.Walks.{part_olds, parts_olds, waiting_olds, coming};

use crate::collections::made_parts;
use crate::far_forms::far_parts;
use crate::operands::operand_parts;
use crate::part::{Part, Parts};
use crate::parts::{
    branches_parts, cases_parts, definitions_parts, field_values_parts, maplets_parts, maybe_parts,
};
use crate::patterns::{bind_parts, binds_parts, maplet_patterns_parts, pattern_parts};
use crate::walk::{Waiting, Walk};
use expr_tree::{Expr, Pattern};
use vdm_kinds::{Name, OutOfMemory};

/// The parts come next, the first one first.
#[tactic(auto, using(crate::proofs::Joined::joined))]
fn put<'t>(walk: &mut Walk<'t>, parts: Parts<'t>) -> Result<(), OutOfMemory>
    ensures { OnOk result (coming walk.new ≡ parts_olds parts.entry ++ coming walk.old) }
{
    match parts {
        Parts::Nothing => Ok(()),
        Parts::Variable(name) => Ok(walk.push(Waiting::Found(name))?),
        Parts::One(a) => Ok(walk.push(Waiting::Within(a))?),
        Parts::Two(a, b) => {
            walk.push(Waiting::Within(b))?;
            Ok(walk.push(Waiting::Within(a))?)
        }
        Parts::Three(a, b, c) => {
            walk.push(Waiting::Within(c))?;
            walk.push(Waiting::Within(b))?;
            Ok(walk.push(Waiting::Within(a))?)
        }
        Parts::Four(a, b, c, d) => {
            walk.push(Waiting::Within(d))?;
            walk.push(Waiting::Within(c))?;
            walk.push(Waiting::Within(b))?;
            Ok(walk.push(Waiting::Within(a))?)
        }
    }
}

/// What stands in an expression comes next. It is of one of the three groups; the others have no parts of it.
#[tactic(auto, using(crate::proofs::Groups::one_group))]
fn see_expr<'t>(walk: &mut Walk<'t>, expression: &'t Expr) -> Result<(), OutOfMemory>
    ensures { OnOk result (coming walk.new ≡ olds_in (view_of expression.now) ++ coming walk.old) }
{
    put(walk, far_parts(expression))?;
    put(walk, made_parts(expression))?;
    Ok(put(walk, operand_parts(expression))?)
}

/// What stands in the expressions of a list comes next.
fn see_exprs<'t>(walk: &mut Walk<'t>, list: &'t [Expr]) -> Result<(), OutOfMemory>
    ensures { OnOk result (coming walk.new ≡ olds_in_exprs (expr_trees (views_of list.now)) ++ coming walk.old) }
{
    for index in (0..list.len()).rev() {
        see_expr(walk, &list[index])?;
    }
    Ok(())
}

/// What stands in the patterns of a list comes next.
fn see_patterns<'t>(walk: &mut Walk<'t>, list: &'t [Pattern]) -> Result<(), OutOfMemory>
    ensures { OnOk result (coming walk.new ≡ olds_in_patterns (pattern_trees (pattern_views list.now)) ++ coming walk.old) }
{
    for index in (0..list.len()).rev() {
        put(walk, pattern_parts(&list[index]))?;
    }
    Ok(())
}

/// What stands in a part comes next.
fn see<'t>(walk: &mut Walk<'t>, part: Part<'t>) -> Result<(), OutOfMemory>
    ensures { OnOk result (coming walk.new ≡ part_olds part.entry ++ coming walk.old) }
{
    match part {
        Part::Expr(expression) => Ok(see_expr(walk, expression)?),
        Part::Exprs(list) => Ok(see_exprs(walk, list)?),
        Part::MaybeExpr(expression) => Ok(put(walk, maybe_parts(expression))?),
        Part::Maplets(list) => Ok(put(walk, maplets_parts(list))?),
        Part::FieldValues(list) => Ok(put(walk, field_values_parts(list))?),
        Part::Definitions(list) => Ok(put(walk, definitions_parts(list))?),
        Part::Branches(list) => Ok(put(walk, branches_parts(list))?),
        Part::Cases(list) => Ok(put(walk, cases_parts(list))?),
        Part::Bind(bind) => Ok(put(walk, bind_parts(bind))?),
        Part::Binds(list) => Ok(put(walk, binds_parts(list))?),
        Part::Pattern(pattern) => Ok(put(walk, pattern_parts(pattern))?),
        Part::Patterns(list) => Ok(see_patterns(walk, list)?),
        Part::MapletPatterns(list) => Ok(put(walk, maplet_patterns_parts(list))?),
    }
}

/// A variable is one of those that were found; what stands in a part comes next.
#[tactic(auto, using(crate::proofs::Joined::joined))]
fn step<'t>(
    walk: &mut Walk<'t>,
    waiting: Waiting<'t>,
    found: Vec<Name>,
) -> Result<Vec<Name>, OutOfMemory>
    ensures { IfOk result (λ names. names.items ++ coming walk.new ≡ found.items ++ (waiting_olds waiting.entry ++ coming walk.old)) }
{
    let mut names = found;
    match waiting {
        Waiting::Found(name) => names.push(name)?,
        Waiting::Within(part) => see(walk, part)?,
    }
    Ok(names)
}

/// The names that were found, and behind them all that a walk has still to come to.
pub(crate) fn finish(mut walk: Walk<'_>, found: Vec<Name>) -> Result<Vec<Name>, OutOfMemory>
    ensures { IfOk result (λ names. names.items ≡ found.items ++ coming walk.entry) }
{
    let mut names = found;
    for _turn in 0..u64::MAX {
        let Some(waiting) = walk.next() else {
            return Ok(names);
        };
        names = step(&mut walk, waiting, names)?;
    }
    Err(OutOfMemory)
}
