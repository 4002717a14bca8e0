// The expressions of an assignment: the indices of its target, and that for the value.

ghost use Rattle.std.specs.Prelude.{◌≡◌, ◌++◌, [], ◌∷◌, map};
ghost use Rattle.expr_tree.specs.View.{boxed_view};
ghost use Rattle.vdm_tree.specs.StmtView.{target_step_view};
ghost use Rattle.stmt_meaning.specs.Targets.{indices};
ghost use Rattle.step_data.specs.Goals.{value_left};
ghost use Rattle.goal_steps.specs.Parts.{exprs_from, indices_from, part_exprs};

use vdm_tree::{Expr, TargetStep};

/// The expression of an assignment that comes next, and what stands behind it.
#[derive(Clone, Copy)]
pub(crate) struct NextPart<'t> {
    pub tree: &'t Box<Expr>,
    /// The steps behind it.
    pub left: &'t [TargetStep],
    /// The expression for the value, while it is still to come.
    pub value: Option<&'t Box<Expr>>,
}

/// The next index, or else the value.
pub(crate) fn first_part<'t>(steps: &'t [TargetStep], value: &'t Box<Expr>) -> NextPart<'t>
    ensures { part_exprs result ≡ indices (map target_step_view steps.now) ++ boxed_view value.now ∷ [] }
{
    match next_index(steps) {
        Some((tree, left)) => NextPart {
            tree,
            left,
            value: Some(value),
        },
        None => NextPart {
            tree: value,
            left: &[],
            value: None,
        },
    }
}

/// The next index, or else the value, where that is still to come.
pub(crate) fn next_part<'t>(
    steps: &'t [TargetStep],
    value: Option<&'t Box<Expr>>,
) -> Option<NextPart<'t>>
    ensures { exprs_from result ≡ indices (map target_step_view steps.now) ++ value_left value.entry }
{
    match value {
        Some(value) => Some(first_part(steps, value)),
        None => {
            let (tree, left) = next_index(steps)?;
            Some(NextPart {
                tree,
                left,
                value: None,
            })
        }
    }
}

/// The first index of these steps, and the steps behind it.
fn next_index<'t>(steps: &'t [TargetStep]) -> Option<(&'t Box<Expr>, &'t [TargetStep])>
    ensures { indices_from result ≡ indices (map target_step_view steps.now) }
{
    let mut left = steps;
    while let Some((step, others)) = left.split_first() {
        left = others;
        if let TargetStep::Element(index, _) = step {
            return Some((index, left));
        }
    }
    None
}
