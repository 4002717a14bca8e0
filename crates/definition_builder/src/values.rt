// Class values.

ghost use Rattle.stmt_reading.specs.Definitions.{value_def_in};
ghost use Rattle.vdm_tree.specs.ClassView.{value_def_view};
ghost use Rattle.leaf_reader.specs.Reads.{Reads};

use definition_parts::read_head;
use grammar_words::Word;
use leaf_reader::{NoTree, Source};
use std::alloc::Global;
use stmt_parts::declared_type;
use vdm_kinds::{Halt, Sign};
use vdm_tree::ValueDef;

/// Takes a definition of a class value.
pub(crate) fn value_def(alloc: Global, source: &mut Source) -> Result<ValueDef, Halt<NoTree>>
    ensures { Reads result value_def_view (value_def_in source.old) source.new }
{
    let head = read_head(source)?;
    let declared = declared_type(alloc, source)?;
    source.word(Word::Operator(Sign::Equal))?;
    let value = source.expr(alloc)?;
    Ok(ValueDef {
        access: head.access,
        name: head.name,
        name_place: head.name_place,
        declared,
        value,
        place: head.place,
    })
}
