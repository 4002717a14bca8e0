// What stands between the statements in a statement.

ghost use Rattle.std.specs.Prelude.{◌≡◌, option_map};
ghost use Rattle.expr_tree.specs.View.{boxed_view};
ghost use Rattle.leaf_reader.specs.Reads.{Reads, boxed_pattern, same};
ghost use Rattle.stmt_parts.specs.Lists.{patterns_view};
ghost use Rattle.stmt_openings.specs.Between.{behind_case_in, branch_in, case_in, closing_in, handler_opening_in};

use expr_tree::{Expr, Pattern};
use grammar_words::Word;
use leaf_reader::{NoTree, Source};
use std::alloc::Global;
use stmt_parts::read_patterns;
use vdm_kinds::Halt;

/// What stands behind an alternative of `cases`.
#[derive(Clone, Copy, Debug, PartialEq, Eq)]
pub enum AfterCase {
    /// `end`
    Ends,
    /// `, others ->`
    Others,
    /// `,` and a further alternative.
    Goes,
}

/// Takes the `)` of a block, with a `;` before it or none, or else the `;` before a further statement. Gives whether it
/// was a `)`.
pub fn closes(source: &mut Source) -> Result<bool, Halt<NoTree>>
    ensures { Reads result same (closing_in source.old) source.new }
{
    if source.take_word(Word::CloseRound).is_some() {
        return Ok(true);
    }
    source.word(Word::Semicolon)?;
    Ok(source.take_word(Word::CloseRound).is_some())
}

/// Takes `elseif c then` where it comes next, and gives the condition.
pub fn branch_opening(alloc: Global, source: &mut Source) -> Result<Option<Box<Expr>>, Halt<NoTree>>
    ensures { Reads result (option_map boxed_view) (branch_in source.old) source.new }
{
    if source.take_word(Word::Elseif).is_none() {
        return Ok(None);
    }
    let condition = source.expr(alloc)?;
    source.word(Word::Then)?;
    Ok(Some(condition))
}

/// Takes `p, q ->`, and gives the patterns.
pub fn case_opening(alloc: Global, source: &mut Source) -> Result<Vec<Pattern>, Halt<NoTree>>
    ensures { Reads result patterns_view (case_in source.old) source.new }
{
    let patterns = read_patterns(alloc, source)?;
    source.word(Word::Arrow)?;
    Ok(patterns)
}

/// Takes what stands behind an alternative of `cases`.
pub fn behind_case(source: &mut Source) -> Result<AfterCase, Halt<NoTree>>
    ensures { Reads result same (behind_case_in source.old) source.new }
{
    if source.take_word(Word::End).is_some() {
        return Ok(AfterCase::Ends);
    }
    source.word(Word::Comma)?;
    if source.take_word(Word::Others).is_none() {
        return Ok(AfterCase::Goes);
    }
    source.word(Word::Arrow)?;
    Ok(AfterCase::Others)
}

/// Takes `p |->`, and gives the pattern.
pub fn handler_opening(alloc: Global, source: &mut Source) -> Result<Box<Pattern>, Halt<NoTree>>
    ensures { Reads result boxed_pattern (handler_opening_in source.old) source.new }
{
    let pattern = source.boxed_pattern(alloc)?;
    source.word(Word::MapsTo)?;
    Ok(pattern)
}
