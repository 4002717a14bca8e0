// Single words before a part in a frame.

ghost use Rattle.std.specs.Prelude.{◌≡◌, ◌∷◌, if◌then◌else◌, IfOk};
ghost use Rattle.grammar_trees.specs.Frames.{State, wants, wants_pattern};
ghost use Rattle.grammar_trees.specs.Machine.{in_mode, no_tree, await_open, await_comma, await_st, await_arrow, await_maps_to};
ghost use Rattle.tree_frames.specs.Views.{frame_view, stack_view, state_view};

use grammar_words::Word;
use tree_frames::{Frame, Mode};
use tree_nodes::{opened, opened_pattern};
use vdm_kinds::OutOfMemory;

/// The frame is opened for an expression, where the word before it was found; else it goes.
pub fn entered(
    found: bool,
    frame: Frame,
    frames: &mut Vec<Frame>,
) -> Result<Option<Mode>, OutOfMemory>
    ensures { IfOk result (λ next. state_view next frames.new.items ≡ if found then in_mode wants (frame_view frame ∷ stack_view frames.old.items) else no_tree) }
{
    if found {
        opened(frame, frames)
    } else {
        frame.discard();
        Ok(None)
    }
}

/// The frame is opened for a pattern, where the word before it was found; else it goes.
pub fn entered_pattern(
    found: bool,
    frame: Frame,
    frames: &mut Vec<Frame>,
) -> Result<Option<Mode>, OutOfMemory>
    ensures { IfOk result (λ next. state_view next frames.new.items ≡ if found then in_mode wants_pattern (frame_view frame ∷ stack_view frames.old.items) else no_tree) }
{
    if found {
        opened_pattern(frame, frames)
    } else {
        frame.discard();
        Ok(None)
    }
}

/// Whether the word is `(`.
pub fn is_open(word: Word) -> bool
    ensures { (next : State) → await_open word next ≡ if result then next else no_tree }
{
    matches!(word, Word::OpenRound)
}

/// Whether the word is `,`.
pub fn is_comma(word: Word) -> bool
    ensures { (next : State) → await_comma word next ≡ if result then next else no_tree }
{
    matches!(word, Word::Comma)
}

/// Whether the word is `st`.
pub fn is_st(word: Word) -> bool
    ensures { (next : State) → await_st word next ≡ if result then next else no_tree }
{
    matches!(word, Word::St)
}

/// Whether the word is `->`.
pub fn is_arrow(word: Word) -> bool
    ensures { (next : State) → await_arrow word next ≡ if result then next else no_tree }
{
    matches!(word, Word::Arrow)
}

/// Whether the word is `|->`.
pub fn is_maps_to(word: Word) -> bool
    ensures { (next : State) → await_maps_to word next ≡ if result then next else no_tree }
{
    matches!(word, Word::MapsTo)
}
