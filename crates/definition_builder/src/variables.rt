// What stands among instance variables.

ghost use Rattle.std.specs.Prelude.{◌≡◌};
ghost use Rattle.stmt_reading.specs.Definitions.{begins_variable, variable_in, variable_item_in};
ghost use Rattle.vdm_tree.specs.ClassView.{variable_item_view};
ghost use Rattle.leaf_reader.specs.Reads.{Reads};

use definition_parts::read_head;
use grammar_words::Word;
use leaf_reader::{NoTree, Source};
use std::alloc::Global;
use stmt_parts::expr_behind;
use vdm_kinds::Halt;
use vdm_tree::{VarDef, VariableItem};

/// Whether a variable or an invariant may begin with the word.
pub(crate) fn begins_variable(word: Word) -> bool
    ensures { result ≡ begins_variable word }
{
    match word {
        Word::Inv
        | Word::Identifier
        | Word::Static
        | Word::Private
        | Word::Protected
        | Word::Public => true,
        _ => false,
    }
}

/// Takes a variable or an invariant.
pub(crate) fn variable_item(
    alloc: Global,
    source: &mut Source,
) -> Result<VariableItem, Halt<NoTree>>
    ensures { Reads result variable_item_view (variable_item_in source.old) source.new }
{
    if let Some(place) = source.take_word(Word::Inv) {
        let condition = source.expr(alloc)?;
        return Ok(VariableItem::Invariant(condition, place));
    }
    variable(alloc, source)
}

/// Takes a variable.
fn variable(alloc: Global, source: &mut Source) -> Result<VariableItem, Halt<NoTree>>
    ensures { Reads result variable_item_view (variable_in source.old) source.new }
{
    let head = read_head(source)?;
    source.word(Word::Colon)?;
    let declared = source.type_expr(alloc)?;
    let initial = expr_behind(alloc, source, Word::Becomes)?;
    Ok(VariableItem::Variable(VarDef {
        access: head.access,
        name: head.name,
        name_place: head.name_place,
        declared,
        initial,
        place: head.place,
    }))
}
