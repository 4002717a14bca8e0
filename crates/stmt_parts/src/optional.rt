// Parts that may be left out.

ghost use Rattle.std.specs.Prelude.{◌≡◌, option_map, is_some};
ghost use Rattle.grammar_fronts.specs.Operands.{expression};
ghost use Rattle.expr_tree.specs.View.{boxed_view};
ghost use Rattle.stmt_reading.specs.Statements.{behind_word_in, such_that_in, value_in};
ghost use Rattle.leaf_reader.specs.Reads.{Reads};

use expr_tree::Expr;
use front_tables::turn_of;
use grammar_fronts::Wanted;
use grammar_words::Word;
use leaf_reader::{NoTree, Source};
use std::alloc::Global;
use vdm_kinds::Halt;

/// An expression behind the word, where the word comes next.
pub fn expr_behind(
    alloc: Global,
    source: &mut Source,
    word: Word,
) -> Result<Option<Box<Expr>>, Halt<NoTree>>
    ensures { Reads result (option_map boxed_view) (behind_word_in word source.old) source.new }
{
    match source.take_word(word) {
        Some(_place) => Ok(Some(source.expr(alloc)?)),
        None => Ok(None),
    }
}

/// The condition behind `be st`, where `be` comes next.
pub fn such_that(alloc: Global, source: &mut Source) -> Result<Option<Box<Expr>>, Halt<NoTree>>
    ensures { Reads result (option_map boxed_view) (such_that_in source.old) source.new }
{
    match source.take_word(Word::Be) {
        Some(_place) => {
            source.word(Word::St)?;
            Ok(Some(source.expr(alloc)?))
        }
        None => Ok(None),
    }
}

/// Whether an expression begins with the word.
fn begins_expr(word: Word) -> bool
    ensures { result ≡ is_some (expression word) }
{
    turn_of(Wanted::Expression, word).is_some()
}

/// An expression, where the next word begins one.
pub fn value(alloc: Global, source: &mut Source) -> Result<Option<Box<Expr>>, Halt<NoTree>>
    ensures { Reads result (option_map boxed_view) (value_in source.old) source.new }
{
    match source.next_word() {
        Some(word) if begins_expr(word) => Ok(Some(source.expr(alloc)?)),
        _ => Ok(None),
    }
}
