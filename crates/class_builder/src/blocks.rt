// Blocks of definitions.

ghost use Rattle.std.specs.Prelude.{◌≡◌, ◌∷◌, None, MatchOption};
ghost use Rattle.vdm_kinds.specs.declared.name.Name.{Name};
ghost use Rattle.grammar_words.specs.declared.word.Word.TheVariants as word_is;
ghost use Rattle.grammar_words.specs.Tokens.{plain};
ghost use Rattle.stmt_reading.specs.Leaves.{turns_for};
ghost use Rattle.stmt_reading.specs.Classes.{block_begun, block_in, blocks_in};
ghost use Rattle.vdm_tree.specs.ClassView.{block_view};
ghost use Rattle.leaf_reader.specs.Reads.{Reads};
ghost use Rattle.class_builder.specs.Lists.{blocks_view};

use definition_builder::{read_items, read_thread};
use grammar_tokens::Token;
use grammar_words::Word;
use leaf_reader::{NO_TREE, NoTree, Source};
use std::alloc::Global;
use vdm_kinds::{Halt, Name, Place};
use vdm_tree::Block;

/// Takes blocks of the class of this name, fewer than there are turns, and the `end` behind them.
pub(crate) fn read_blocks(
    alloc: Global,
    turns: usize,
    class: Name,
    source: &mut Source,
) -> Result<Vec<Block>, Halt<NoTree>>
    ensures { Reads result blocks_view (blocks_in class turns source.old) source.new }
{
    let mut blocks = Vec::new(alloc);
    for _turn in 0..turns {
        if let Some(_end) = source.take_word(Word::End) {
            return Ok(blocks);
        }
        blocks.push(read_block(alloc, class, source)?)?;
    }
    Err(NO_TREE)
}

/// Takes the next token, if it is a word without a name and without a value.
fn take_plain(source: &mut Source) -> Option<(Word, Place)>
    ensures { MatchOption result ((class : Name) → block_in class source.old ≡ None) (λ found. source.old ≡ plain found.0 found.1 ∷ source.new) }
{
    match source.take()? {
        Token::Plain(word, place) => Some((word, place)),
        _ => None,
    }
}

/// Takes a block of the class of this name.
fn read_block(alloc: Global, class: Name, source: &mut Source) -> Result<Block, Halt<NoTree>>
    ensures { Reads result block_view (block_in class source.old) source.new }
{
    let (word, place) = take_plain(source).ok_or(NO_TREE)?;
    let turns = source.len() + 1;
    match word {
        Word::Types => types(alloc, turns, class, place, source),
        Word::Values => values(alloc, turns, class, place, source),
        Word::Instance => variables(alloc, turns, class, place, source),
        Word::Functions => functions(alloc, turns, class, place, source),
        Word::Operations => operations(alloc, turns, class, place, source),
        Word::Thread => thread_block(alloc, place, source),
        Word::Sync => clauses(alloc, turns, class, place, source),
        _ => Err(NO_TREE),
    }
}

/// Takes definitions of types, behind the word that stands there.
fn types(
    alloc: Global,
    turns: usize,
    class: Name,
    place: Place,
    source: &mut Source,
) -> Result<Block, Halt<NoTree>>
    requires { turns ≡ turns_for source.old }
    ensures { Reads result block_view (block_begun class (plain word_is.Types place) source.old) source.new }
{
    Ok(Block::Types(read_items(alloc, turns, class, source)?, place))
}

/// Takes definitions of values, behind the word that stands there.
fn values(
    alloc: Global,
    turns: usize,
    class: Name,
    place: Place,
    source: &mut Source,
) -> Result<Block, Halt<NoTree>>
    requires { turns ≡ turns_for source.old }
    ensures { Reads result block_view (block_begun class (plain word_is.Values place) source.old) source.new }
{
    Ok(Block::Values(read_items(alloc, turns, class, source)?, place))
}

/// Takes instance variables and invariants, behind the word `instance` that stands there.
fn variables(
    alloc: Global,
    turns: usize,
    class: Name,
    place: Place,
    source: &mut Source,
) -> Result<Block, Halt<NoTree>>
    requires { turns ≡ turns_for source.old }
    ensures { Reads result block_view (block_begun class (plain word_is.Instance place) source.old) source.new }
{
    source.word(Word::Variables)?;
    Ok(Block::Variables(read_items(alloc, turns, class, source)?, place))
}

/// Takes functions, behind the word that stands there.
fn functions(
    alloc: Global,
    turns: usize,
    class: Name,
    place: Place,
    source: &mut Source,
) -> Result<Block, Halt<NoTree>>
    requires { turns ≡ turns_for source.old }
    ensures { Reads result block_view (block_begun class (plain word_is.Functions place) source.old) source.new }
{
    Ok(Block::Functions(read_items(alloc, turns, class, source)?, place))
}

/// Takes operations, behind the word that stands there.
fn operations(
    alloc: Global,
    turns: usize,
    class: Name,
    place: Place,
    source: &mut Source,
) -> Result<Block, Halt<NoTree>>
    requires { turns ≡ turns_for source.old }
    ensures { Reads result block_view (block_begun class (plain word_is.Operations place) source.old) source.new }
{
    Ok(Block::Operations(read_items(alloc, turns, class, source)?, place))
}

/// Takes clauses of synchronisation, behind the word that stands there.
fn clauses(
    alloc: Global,
    turns: usize,
    class: Name,
    place: Place,
    source: &mut Source,
) -> Result<Block, Halt<NoTree>>
    requires { turns ≡ turns_for source.old }
    ensures { Reads result block_view (block_begun class (plain word_is.Sync place) source.old) source.new }
{
    Ok(Block::Sync(read_items(alloc, turns, class, source)?, place))
}

/// Takes a thread, behind the word that stands there. A `;` may follow it.
fn thread_block(alloc: Global, place: Place, source: &mut Source) -> Result<Block, Halt<NoTree>>
    ensures { (class : Name) → Reads result block_view (block_begun class (plain word_is.Thread place) source.old) source.new }
{
    let thread = read_thread(alloc, source)?;
    source.take_word(Word::Semicolon);
    Ok(Block::Thread(thread, place))
}
