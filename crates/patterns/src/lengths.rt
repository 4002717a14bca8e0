// How long the sequences are that a pattern matches.

ghost use Rattle.std.specs.Prelude.{◌≡◌, ℕ, ◌+◌, ◌≤◌, ◌<◌, MatchOption};
ghost use Rattle.abstract_syntax.specs.Expressions.{literal_pattern};
ghost use Rattle.vdm_kinds.specs.declared.place.Place.{Place};
ghost use Rattle.type_tree.specs.LiteralView.{literal_view};
ghost use Rattle.expr_tree.specs.View.{pattern_view, pattern_views, pattern_trees};
ghost use Rattle.patterns.specs.Lengths.{fixed_length as length_of, least_length, is_open, MayTake};

use expr_tree::{Literal, Pattern};

/// The fronts that a pattern may take of so many items, and leave the rest to the others: how many items the shortest and the longest
/// have. None where there is no such front.
pub(crate) fn fronts(pattern: &Pattern, others: &[Pattern], items: usize) -> Option<(usize, usize)>
    ensures { MatchOption result ((k : ℕ) → MayTake (pattern_view pattern.now) (pattern_trees (pattern_views others.now)) items k → ⊥) (λ r. ((k : ℕ) → MayTake (pattern_view pattern.now) (pattern_trees (pattern_views others.now)) items k → (r.0 ≤ k) × (k ≤ r.1)) × (r.1 ≤ items)) }
{
    let (most, open) = left_for(others, items)?;
    match fixed_length(pattern) {
        Some(own) => {
            if own == most || (open && own < most) {
                Some((own, own))
            } else {
                None
            }
        }
        None => {
            if open {
                Some((0, most))
            } else {
                Some((most, most))
            }
        }
    }
}

// How many of the items are left where each of the patterns whose length shows has its own, and whether the length of some does
// not show. None where there are too few.
fn left_for(patterns: &[Pattern], items: usize) -> Option<(usize, bool)>
    ensures { MatchOption result (items < least_length (pattern_trees (pattern_views patterns.now))) (λ r. (r.0 + least_length (pattern_trees (pattern_views patterns.now)) ≡ items) × (r.1 ≡ is_open (pattern_trees (pattern_views patterns.now)))) }
{
    let mut left = items;
    let mut open = false;
    for pattern in patterns {
        match fixed_length(pattern) {
            Some(own) => {
                if own > left {
                    return None;
                }
                left -= own;
            }
            None => open = true,
        }
    }
    Some((left, open))
}

// The one length of the sequences that it matches, where the pattern shows it.
fn fixed_length(pattern: &Pattern) -> Option<usize>
    ensures { result ≡ length_of (pattern_view pattern.now) }
{
    match pattern {
        Pattern::Sequence(parts, _) => Some(parts.len()),
        Pattern::Literal(literal, _) => text_length(literal),
        _ => None,
    }
}

fn text_length(literal: &Literal) -> Option<usize>
    ensures { (place : Place) → result ≡ length_of (literal_pattern (literal_view literal.now) place) }
{
    match literal {
        Literal::Text(characters) => Some(characters.len()),
        _ => None,
    }
}
