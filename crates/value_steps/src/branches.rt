// The one branch where the condition is true.

ghost use Rattle.std.specs.Prelude.{◌≡◌, map};
ghost use Rattle.abstract_syntax.specs.Expressions.{one_branch};
ghost use Rattle.expr_tree.specs.View.{boxed_view, branch_view, branch_trees};
ghost use Rattle.node_meaning.specs.Envs.{Locals, at};
ghost use Rattle.node_meaning.specs.Expressions.{branches};
ghost use Rattle.node_meaning.specs.Needs.{Setting};
ghost use Rattle.node_meaning.specs.Tasks.{expr_in};
ghost use Rattle.plans.specs.Plans.{become};
ghost use Rattle.eval_data.specs.declared.frame.TruthUse.TheVariants.{Branch as ForBranch};
ghost use Rattle.eval_data.specs.Parts.{here_of};
ghost use Rattle.eval_data.specs.Steps.{code_of, truth_use};

use crate::operands::part_for;
use eval_data::{Here, Step, TruthUse, Use};
use expr_tree::{Branch, Expr};
use vdm_kinds::Place;

/// `if condition then tree elseif .. else otherwise`
pub fn if_else<'t>(
    here: Here<'t>,
    condition: &'t Box<Expr>,
    tree: &'t Box<Expr>,
    elseifs: &'t [Branch],
    otherwise: &'t Box<Expr>,
    place: Place,
) -> Step<'t>
    ensures { (setting : Setting) (locals : Locals) → code_of setting locals result ≡ branches (here_of here.entry) place (one_branch (boxed_view condition.entry.now) (boxed_view tree.entry.now) (branch_trees (map branch_view elseifs.entry.now))) (boxed_view otherwise.entry.now) locals }
{
    let used = TruthUse::Branch(here, tree, elseifs, otherwise);
    part_for(here, condition, Use::Truth(used), place)
}

/// The condition of a branch is true, or not.
pub fn branch<'t>(
    here: Here<'t>,
    tree: &'t Box<Expr>,
    more: &'t [Branch],
    otherwise: &'t Box<Expr>,
    place: Place,
    truth: bool,
) -> Step<'t>
    ensures { (setting : Setting) (locals : Locals) → code_of setting locals result ≡ truth_use setting.spec (ForBranch here.entry tree.entry more.entry otherwise.entry) place truth locals }
{
    if truth {
        in_stead(here, tree)
    } else {
        branches(here, more, otherwise, place)
    }
}

/// The first of the branches that are left, or what stands behind all of them.
fn branches<'t>(
    here: Here<'t>,
    more: &'t [Branch],
    otherwise: &'t Box<Expr>,
    place: Place,
) -> Step<'t>
    ensures { (setting : Setting) (locals : Locals) → code_of setting locals result ≡ branches (here_of here.entry) place (branch_trees (map branch_view more.entry.now)) (boxed_view otherwise.entry.now) locals }
{
    match more {
        [] => in_stead(here, otherwise),
        [first, others @ ..] => {
            if_else(
                here,
                &first.condition,
                &first.value,
                others,
                otherwise,
                place,
            )
        }
    }
}

/// The expression in the node's stead.
fn in_stead<'t>(here: Here<'t>, tree: &'t Box<Expr>) -> Step<'t>
    ensures { (setting : Setting) (locals : Locals) → code_of setting locals result ≡ become (expr_in (at (here_of here.entry) locals) (boxed_view tree.entry.now)) }
{
    Step::Become(here, tree)
}
