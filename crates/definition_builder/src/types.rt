// Definitions of types.

ghost use Rattle.std.specs.Prelude.{option_map};
ghost use Rattle.expr_tree.specs.TypeDefView.{type_body_view, invariant_view, type_def_view};
ghost use Rattle.stmt_reading.specs.Definitions.{fields_in, type_body_in, invariant_in, type_def_in};
ghost use Rattle.leaf_reader.specs.Reads.{Reads};
ghost use Rattle.definition_parts.specs.Parts.{fields_view};

use definition_parts::read_head;
use grammar_words::Word;
use leaf_reader::{NO_TREE, NoTree, Source};
use std::alloc::Global;
use vdm_kinds::{Halt, Name, Sign};
use vdm_tree::{Field, TypeBody, TypeDef, TypeInvariant};

/// Takes a definition of a type in the class of this name, with fewer fields than there are turns.
pub(crate) fn type_def(
    alloc: Global,
    turns: usize,
    class: Name,
    source: &mut Source,
) -> Result<TypeDef, Halt<NoTree>>
    ensures { Reads result type_def_view (type_def_in turns class source.old) source.new }
{
    let head = read_head(source)?;
    let body = type_body(alloc, turns, source)?;
    let invariant = invariant(alloc, source)?;
    Ok(TypeDef {
        access: head.access,
        class,
        name: head.name,
        name_place: head.name_place,
        body,
        invariant,
        place: head.place,
    })
}

/// Takes what a type is: another type, or the type of the records of fields.
fn type_body(alloc: Global, turns: usize, source: &mut Source) -> Result<TypeBody, Halt<NoTree>>
    ensures { Reads result type_body_view (type_body_in turns source.old) source.new }
{
    if source.take_word(Word::Operator(Sign::Equal)).is_some() {
        return Ok(TypeBody::Same(source.type_expr(alloc)?));
    }
    source.word(Word::DoubleColon)?;
    Ok(TypeBody::Fields(fields(alloc, turns, source)?))
}

/// Takes fields while a name comes next, fewer than there are turns.
fn fields(alloc: Global, turns: usize, source: &mut Source) -> Result<Vec<Field>, Halt<NoTree>>
    ensures { Reads result fields_view (fields_in turns source.old) source.new }
{
    let mut fields = Vec::new(alloc);
    for _turn in 0..turns {
        let Some(name) = source.take_name() else {
            return Ok(fields);
        };
        source.word(Word::Colon)?;
        let declared = source.type_expr(alloc)?;
        fields.push(Field {
            name: name.name,
            name_place: name.place,
            declared,
        })?;
    }
    Err(NO_TREE)
}

/// Takes the invariant of a type, where one comes next.
fn invariant(alloc: Global, source: &mut Source) -> Result<Option<TypeInvariant>, Halt<NoTree>>
    ensures { Reads result (option_map invariant_view) (invariant_in source.old) source.new }
{
    if source.take_word(Word::Inv).is_none() {
        return Ok(None);
    }
    let pattern = source.pattern(alloc)?;
    source.word(Word::DoubleEqual)?;
    let condition = source.expr(alloc)?;
    Ok(Some(TypeInvariant { pattern, condition }))
}
