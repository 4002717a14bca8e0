// The parts of patterns and binds.

ghost use Rattle.std.specs.Prelude.{◌≡◌, map};
ghost use Rattle.stmt_meaning.specs.Olds.{olds_in_pattern, olds_in_maplet_patterns, olds_in_bind, olds_in_binds};
ghost use Rattle.expr_tree.specs.View.{pattern_view, maplet_pattern_view, maplet_pattern_trees, bind_view, bind_trees};
ghost use Rattle.old_names.specs.Walks.{parts_olds};

use crate::part::{Part, Parts};
use expr_tree::{Bind, MapletPattern, Pattern};

/// What stands in a pattern.
pub(crate) fn pattern_parts(pattern: &Pattern) -> Parts<'_>
    ensures { parts_olds result ≡ olds_in_pattern (pattern_view pattern.now) }
{
    match pattern {
        Pattern::EqualTo(inner, _) => Parts::One(Part::Expr(inner)),
        Pattern::Set(parts, _)
        | Pattern::Sequence(parts, _)
        | Pattern::Tuple(parts, _)
        | Pattern::Record(_, parts, _)
        | Pattern::Concatenation(parts, _) => Parts::One(Part::Patterns(parts)),
        Pattern::Map(maplets, _) => Parts::One(Part::MapletPatterns(maplets)),
        Pattern::AnyValue(_)
        | Pattern::Bound(_, _)
        | Pattern::Literal(_, _)
        | Pattern::EmptyMap(_) => Parts::Nothing,
    }
}

/// The maplets of a pattern.
pub(crate) fn maplet_patterns_parts(maplets: &[MapletPattern]) -> Parts<'_>
    ensures { parts_olds result ≡ olds_in_maplet_patterns (maplet_pattern_trees (map maplet_pattern_view maplets.now)) }
{
    match maplets {
        [first, others @ ..] => Parts::Three(
            Part::Pattern(&first.key),
            Part::Pattern(&first.value),
            Part::MapletPatterns(others),
        ),
        [] => Parts::Nothing,
    }
}

/// What stands in a bind.
pub(crate) fn bind_parts(bind: &Bind) -> Parts<'_>
    ensures { parts_olds result ≡ olds_in_bind (bind_view bind.now) }
{
    Parts::Two(Part::Patterns(&bind.patterns), Part::Expr(&bind.set))
}

/// The binds of a list.
pub(crate) fn binds_parts(binds: &[Bind]) -> Parts<'_>
    ensures { parts_olds result ≡ olds_in_binds (bind_trees (map bind_view binds.now)) }
{
    match binds {
        [first, others @ ..] => Parts::Two(Part::Bind(first), Part::Binds(others)),
        [] => Parts::Nothing,
    }
}
