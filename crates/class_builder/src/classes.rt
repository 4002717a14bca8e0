// Classes.

ghost use Rattle.stmt_reading.specs.Classes.{class_in, classes_in, superclasses_in};
ghost use Rattle.vdm_tree.specs.ClassView.{class_view};
ghost use Rattle.leaf_reader.specs.Reads.{Reads};
ghost use Rattle.definition_parts.specs.Parts.{names_view};
ghost use Rattle.class_builder.specs.Lists.{classes_view};

use crate::blocks::read_blocks;
use definition_parts::read_names;
use grammar_words::Word;
use leaf_reader::{NO_TREE, NoTree, Source};
use std::alloc::Global;
use vdm_kinds::{Halt, NameAt, Place};
use vdm_tree::ClassDef;

/// Takes classes, fewer than there are turns.
pub(crate) fn read_classes(
    alloc: Global,
    turns: usize,
    source: &mut Source,
) -> Result<Vec<ClassDef>, Halt<NoTree>>
    ensures { Reads result classes_view (classes_in turns source.old) source.new }
{
    let mut classes = Vec::new(alloc);
    for _turn in 0..turns {
        let Some(place) = source.take_word(Word::Class) else {
            return Ok(classes);
        };
        classes.push(read_class(alloc, place, source)?)?;
    }
    Err(NO_TREE)
}

/// Takes a class behind its first word, which stands there.
fn read_class(alloc: Global, place: Place, source: &mut Source) -> Result<ClassDef, Halt<NoTree>>
    ensures { Reads result class_view (class_in place source.old) source.new }
{
    let turns = source.len() + 1;
    let name = source.name()?;
    let superclasses = superclasses(alloc, source)?;
    let blocks = read_blocks(alloc, turns, name.name, source)?;
    source.name_again(name.name)?;
    Ok(ClassDef {
        name: name.name,
        name_place: name.place,
        superclasses,
        blocks,
        place,
    })
}

/// Takes the superclasses of a class, where there are any.
fn superclasses(alloc: Global, source: &mut Source) -> Result<Vec<NameAt>, Halt<NoTree>>
    ensures { Reads result names_view (superclasses_in source.old) source.new }
{
    if source.take_word(Word::Is).is_none() {
        return Ok(Vec::new(alloc));
    }
    source.word(Word::Subclass)?;
    source.word(Word::Of)?;
    read_names(alloc, source)
}
