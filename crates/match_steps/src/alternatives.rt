// The alternatives behind a pattern.

ghost use Rattle.std.specs.Prelude.{◌≡◌, ◌<◌, map, IfSome, MatchOption};
ghost use Rattle.vdm_kinds.specs.declared.place.Place.{Place};
ghost use Rattle.abstract_syntax.specs.Classes.{SpecTree};
ghost use Rattle.abstract_syntax.specs.Values.{ValueTree};
ghost use Rattle.expr_tree.specs.View.{boxed_view, case_view, case_trees, maybe_view};
ghost use Rattle.node_meaning.specs.Envs.{Locals};
ghost use Rattle.node_meaning.specs.Expressions.{cases_met, others_of};
ghost use Rattle.node_meaning.specs.Needs.{Setting};
ghost use Rattle.eval_data.specs.declared.matching.Met.TheVariants.{Case as Alternative};
ghost use Rattle.eval_data.specs.Parts.{here_of};
ghost use Rattle.eval_data.specs.Steps.{code_of, meets_with, missed};
ghost use Rattle.match_steps.specs.Trials.{case_count, further_count, left_over};

use eval_data::{Here, Met, MetCase, Step};
use expr_tree::{Case, Expr};
use vdm_kinds::{Place, RunFault};

/// The first pattern of alternatives.
pub(crate) fn first_case<'t>(
    here: Here<'t>,
    cases: &'t [Case],
    others: &'t Option<Box<Expr>>,
    count: usize,
) -> Option<Met<'t>>
    ensures found { MatchOption result ((spec : SpecTree) (place : Place) (v : ValueTree) (locals : Locals) → cases_met spec (here_of here.entry) place (case_trees (map case_view cases.now)) (maybe_view others.now) count v locals ≡ others_of (here_of here.entry) place (maybe_view others.now) locals) (λ met. (spec : SpecTree) (place : Place) (v : ValueTree) (locals : Locals) → cases_met spec (here_of here.entry) place (case_trees (map case_view cases.now)) (maybe_view others.now) count v locals ≡ meets_with spec met place v locals) }
    ensures fewer { IfSome result (λ met. further_count met < case_count (case_trees (map case_view cases.now))) }
{
    let mut left = cases;
    while let Some((case, more)) = left.split_first() {
        if let Some((pattern, patterns)) = case.patterns.as_slice().split_first() {
            let body = body_of(case);
            return Some(Met::Case(
                here,
                MetCase {
                    pattern,
                    patterns,
                    body,
                    more,
                    others,
                    count,
                },
            ));
        }
        left = more;
    }
    None
}

// The expression of an alternative.
fn body_of<'t>(case: &'t Case) -> &'t Box<Expr>
    ensures { boxed_view result.now ≡ boxed_view case.now.value }
{
    &case.value
}

/// The pattern that is tried where this one does not match.
pub(crate) fn next_of<'t>(met: Met<'t>) -> Option<Met<'t>>
    ensures found { MatchOption result ((spec : SpecTree) (place : Place) (v : ValueTree) (locals : Locals) → missed spec met.entry place v locals ≡ left_over met.entry place locals) (λ next. (spec : SpecTree) (place : Place) (v : ValueTree) (locals : Locals) → missed spec met.entry place v locals ≡ meets_with spec next place v locals) }
    ensures fewer { IfSome result (λ next. further_count next < further_count met.entry) }
{
    match met {
        Met::Definition(_, _) => None,
        Met::Case(here, case) => next_case(here, case),
    }
}

fn next_case<'t>(here: Here<'t>, case: MetCase<'t>) -> Option<Met<'t>>
    ensures found { MatchOption result ((spec : SpecTree) (place : Place) (v : ValueTree) (locals : Locals) → missed spec (Alternative here.entry case.entry) place v locals ≡ left_over (Alternative here.entry case.entry) place locals) (λ next. (spec : SpecTree) (place : Place) (v : ValueTree) (locals : Locals) → missed spec (Alternative here.entry case.entry) place v locals ≡ meets_with spec next place v locals) }
    ensures fewer { IfSome result (λ next. further_count next < further_count (Alternative here.entry case.entry)) }
{
    let MetCase {
        patterns,
        body,
        more,
        others,
        count,
        ..
    } = case;
    match patterns.split_first() {
        Some((pattern, patterns)) => {
            Some(Met::Case(
                here,
                MetCase {
                    pattern,
                    patterns,
                    body,
                    more,
                    others,
                    count,
                },
            ))
        }
        None => first_case(here, more, others, count),
    }
}

/// Where no pattern is left.
pub(crate) fn left_over<'t>(met: Met<'t>, place: Place) -> Step<'t>
    ensures { (setting : Setting) (locals : Locals) → code_of setting locals result ≡ left_over met.entry place locals }
{
    match met {
        Met::Definition(_, _) => Step::Fail(RunFault::NoMatch, place),
        Met::Case(here, case) => others_of(here, case.others, place),
    }
}

/// What stands behind all alternatives.
pub(crate) fn others_of<'t>(here: Here<'t>, others: &'t Option<Box<Expr>>, place: Place) -> Step<'t>
    ensures { (setting : Setting) (locals : Locals) → code_of setting locals result ≡ others_of (here_of here.entry) place (maybe_view others.now) locals }
{
    match others {
        None => Step::Fail(RunFault::NoMatch, place),
        Some(tree) => Step::Become(here, tree),
    }
}
