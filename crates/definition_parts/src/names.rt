// Lists of names.

ghost use Rattle.stmt_reading.specs.Leaves.{further, list_in, name_in};
ghost use Rattle.grammar_words.specs.declared.word.Word.TheVariants.{Comma};
ghost use Rattle.leaf_reader.specs.Reads.{Reads};
ghost use Rattle.definition_parts.specs.Parts.{names_view, put_all};

use grammar_words::Word;
use leaf_reader::{NO_TREE, NoTree, Source};
use std::alloc::Global;
use vdm_kinds::{Halt, NameAt};

/// Takes a name, and further ones behind a `,` each.
pub fn read_names(alloc: Global, source: &mut Source) -> Result<Vec<NameAt>, Halt<NoTree>>
    ensures { Reads result names_view (list_in Comma name_in source.old) source.new }
{
    let turns = source.len() + 1;
    let mut names = Vec::new(alloc);
    names.push(source.name()?)?;
    for _turn in 0..turns {
        let Some(_comma) = source.take_word(Word::Comma) else {
            return Ok(names);
        };
        names.push(source.name()?)?;
    }
    Err(NO_TREE)
}
