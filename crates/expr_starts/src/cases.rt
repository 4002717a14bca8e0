// `others`, which stands behind the cases.

ghost use Rattle.std.specs.Prelude.{◌≡◌, List, map};
ghost use Rattle.expr_tree.specs.View.{view_of, pattern_trees, pattern_views, case_trees, case_view};
ghost use Rattle.grammar_trees.specs.Machine.{in_cases, others_of};
ghost use Rattle.tree_nodes.specs.Emptiness.{is_empty_cases};
ghost use Rattle.tree_frames.specs.declared.frame.Frame.{Frame as FrameView};
ghost use Rattle.tree_frames.specs.Views.{stack_view, state_view};

use crate::lists::has_no_pattern;
use expr_tree::{Case, Expr, Pattern};
use tree_frames::{Frame, Header, Mode, popped};
use tree_nodes::awaiting;
use vdm_kinds::Place;

/// `others` in the place of the patterns of a further case.
pub fn others(frames: &mut Vec<Frame>) -> Option<Mode>
    ensures { state_view result frames.new.items ≡ in_cases (stack_view frames.old.items) }
{
    match popped(frames) {
        Some(Frame::CasePatterns(subject, cases, patterns, place)) => {
            others_of(subject, cases, patterns, place)
        }
        Some(frame) => {
            frame.discard();
            None
        }
        None => None,
    }
}

/// `others` behind the cases, where the next has no pattern yet.
fn others_of(
    subject: Box<Expr>,
    cases: Vec<Case>,
    patterns: Vec<Pattern>,
    place: Place,
) -> Option<Mode>
    ensures { (frames : List FrameView) → state_view result frames ≡ others_of (view_of subject.value) (case_trees (map case_view cases.items)) (pattern_trees (pattern_views patterns.items)) place (stack_view frames) }
{
    if has_no_case(&cases) {
        None
    } else if has_no_pattern(&patterns) {
        awaiting(Header::ArrowThen(Frame::OthersValue(subject, cases, place)))
    } else {
        None
    }
}

/// Whether there is no case.
fn has_no_case(cases: &[Case]) -> bool
    ensures { result ≡ is_empty_cases (case_trees (map case_view cases.now)) }
{
    match cases {
        [] => true,
        _ => false,
    }
}
