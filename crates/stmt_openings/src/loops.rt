// What stands before the body of a loop.

ghost use Rattle.std.specs.Prelude.{◌≡◌, List, IfOk};
ghost use Rattle.grammar_words.specs.Tokens.{Token as TokenTree};
ghost use Rattle.abstract_syntax.specs.Statements.{StmtTree};
ghost use Rattle.stmt_reading.specs.Leaves.{Read};
ghost use Rattle.stmt_reading.specs.Statements.{counted_in, for_in, numbers_in, sequence_in, set_in, while_in};
ghost use Rattle.leaf_reader.specs.Reads.{Takes, same};
ghost use Rattle.stmt_openings.specs.Openings.{Opens};

use crate::header::Header;
use crate::opening::Opening;
use grammar_tokens::Token;
use grammar_words::Word;
use leaf_reader::{NoTree, Source};
use std::alloc::Global;
use stmt_parts::expr_behind;
use vdm_kinds::{Halt, NameAt, OutOfMemory, Place, Sign};

/// `while c do`, behind the word.
pub(crate) fn while_opening(
    alloc: Global,
    source: &mut Source,
    place: Place,
) -> Result<Opening, Halt<NoTree>>
    ensures { (one : List TokenTree → Read StmtTree) → Opens result one (while_in one place source.old) source.new }
{
    let condition = source.expr(alloc)?;
    source.word(Word::Do)?;
    Ok(Opening::Body(Header::While(condition, place)))
}

/// `a to b by c do`, behind the name and its `=`.
fn numbers_opening(
    alloc: Global,
    source: &mut Source,
    place: Place,
    name: NameAt,
) -> Result<Opening, Halt<NoTree>>
    ensures { (one : List TokenTree → Read StmtTree) → Opens result one (numbers_in one place name source.old) source.new }
{
    let first = source.expr(alloc)?;
    source.word(Word::To)?;
    let last = source.expr(alloc)?;
    let step = expr_behind(alloc, source, Word::By)?;
    source.word(Word::Do)?;
    Ok(Opening::Body(Header::Numbers(name, first, last, step, place)))
}

/// `p in set S do`, behind `for all`.
fn set_opening(alloc: Global, source: &mut Source, place: Place) -> Result<Opening, Halt<NoTree>>
    ensures { (one : List TokenTree → Read StmtTree) → Opens result one (set_in one place source.old) source.new }
{
    let pattern = source.boxed_pattern(alloc)?;
    source.word(Word::Operator(Sign::InSet))?;
    let set = source.expr(alloc)?;
    source.word(Word::Do)?;
    Ok(Opening::Body(Header::Set(pattern, set, place)))
}

/// `p in q do`, behind `for`.
fn sequence_opening(
    alloc: Global,
    source: &mut Source,
    place: Place,
) -> Result<Opening, Halt<NoTree>>
    ensures { (one : List TokenTree → Read StmtTree) → Opens result one (sequence_in one place source.old) source.new }
{
    let pattern = source.boxed_pattern(alloc)?;
    source.word(Word::In)?;
    let sequence = source.expr(alloc)?;
    source.word(Word::Do)?;
    Ok(Opening::Body(Header::Sequence(pattern, sequence, place)))
}

/// Takes a name and the `=` behind it where both come next. Else nothing changes.
fn counted(source: &mut Source) -> Result<Option<NameAt>, OutOfMemory>
    ensures { IfOk result (λ found. Takes found same (counted_in source.old) source.old source.new) }
{
    let Some(name) = source.take_name() else {
        return Ok(None);
    };
    if source.take_word(Word::Operator(Sign::Equal)).is_some() {
        return Ok(Some(name));
    }
    source.put_back(Token::Identifier(name.name, name.place))?;
    Ok(None)
}

/// What stands before the body of a `for`, behind the word.
pub(crate) fn for_opening(
    alloc: Global,
    source: &mut Source,
    place: Place,
) -> Result<Opening, Halt<NoTree>>
    ensures { (one : List TokenTree → Read StmtTree) → Opens result one (for_in one place source.old) source.new }
{
    if source.take_word(Word::All).is_some() {
        return set_opening(alloc, source, place);
    }
    match counted(source)? {
        Some(name) => numbers_opening(alloc, source, place, name),
        None => sequence_opening(alloc, source, place),
    }
}
