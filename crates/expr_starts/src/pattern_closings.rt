// What closes or ends where a pattern of a list is wanted.

ghost use Rattle.std.specs.Prelude.{◌≡◌};
ghost use Rattle.grammar_trees.specs.Machine.{in_pattern_items, empty_pattern_curly, empty_pattern_square, empty_pattern_round, empty_pattern_maps_to};
ghost use Rattle.tree_frames.specs.Views.{stack_view, state_view};

use crate::lists::empty_patterns;
use expr_tree::Pattern;
use std::alloc::Global;
use tree_frames::{Frame, Header, Mode, PatternsFor};
use tree_nodes::awaiting;

/// `}` where a pattern is wanted: of the set without an element.
pub fn close_curly(alloc: Global, frames: &mut Vec<Frame>) -> Option<Mode>
    ensures { state_view result frames.new.items ≡ in_pattern_items empty_pattern_curly (stack_view frames.old.items) }
{
    let list = empty_patterns(frames)?;
    match list.listed {
        PatternsFor::SetLike => Some(Mode::HasPattern(Pattern::set(Vec::new(alloc), list.place))),
        _ => None,
    }
}

/// `]` where a pattern is wanted: of the sequence without an item.
pub fn close_square(alloc: Global, frames: &mut Vec<Frame>) -> Option<Mode>
    ensures { state_view result frames.new.items ≡ in_pattern_items empty_pattern_square (stack_view frames.old.items) }
{
    let list = empty_patterns(frames)?;
    match list.listed {
        PatternsFor::SequenceLike => {
            let tree = Pattern::sequence(Vec::new(alloc), list.place);
            Some(Mode::HasPattern(tree))
        }
        _ => None,
    }
}

/// `)` where a pattern is wanted: of the record without a field.
pub fn close_round(alloc: Global, frames: &mut Vec<Frame>) -> Option<Mode>
    ensures { state_view result frames.new.items ≡ in_pattern_items empty_pattern_round (stack_view frames.old.items) }
{
    let list = empty_patterns(frames)?;
    match list.listed {
        PatternsFor::RecordLike(type_name) => {
            let tree = Pattern::record(type_name, Vec::new(alloc), list.place);
            Some(Mode::HasPattern(tree))
        }
        _ => None,
    }
}

/// `|->` where a pattern is wanted: of the map without a pair, whose `}` is still to come.
pub fn maps_to(frames: &mut Vec<Frame>) -> Option<Mode>
    ensures { state_view result frames.new.items ≡ in_pattern_items empty_pattern_maps_to (stack_view frames.old.items) }
{
    let list = empty_patterns(frames)?;
    match list.listed {
        PatternsFor::SetLike => awaiting(Header::EmptyPatternEnd(list.place)),
        _ => None,
    }
}
