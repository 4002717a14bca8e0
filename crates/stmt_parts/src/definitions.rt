// Definitions of values behind `let`.

ghost use Rattle.std.specs.Prelude.{◌≡◌, option_map};
ghost use Rattle.grammar_words.specs.declared.word.Word.TheVariants as word_is;
ghost use Rattle.type_tree.specs.TypeView.{type_view};
ghost use Rattle.expr_tree.specs.View.{pattern_view};
ghost use Rattle.stmt_reading.specs.Leaves.{further, turns_for};
ghost use Rattle.stmt_reading.specs.Statements.{declared_in, defined_in, definition_in};
ghost use Rattle.leaf_reader.specs.Reads.{Reads};
ghost use Rattle.stmt_parts.specs.Lists.{added, one_added, definition_row, definition_rows, definitions_view};

use expr_tree::{Defined, Pattern, TypeExpr};
use grammar_words::Word;
use leaf_reader::{NO_TREE, NoTree, Source};
use std::alloc::Global;
use vdm_kinds::{Halt, Sign};

/// A `:` and a type, where the `:` comes next.
pub fn declared_type(alloc: Global, source: &mut Source) -> Result<Option<TypeExpr>, Halt<NoTree>>
    ensures { Reads result (option_map type_view) (declared_in source.old) source.new }
{
    match source.take_word(Word::Colon) {
        Some(_place) => Ok(Some(source.type_expr(alloc)?)),
        None => Ok(None),
    }
}

/// The definition whose pattern was read.
fn defined(
    alloc: Global,
    source: &mut Source,
    pattern: Box<Pattern>,
) -> Result<Defined, Halt<NoTree>>
    ensures { Reads result definition_row (defined_in (pattern_view pattern.value) source.old) source.new }
{
    let declared = declared_type(alloc, source)?;
    source.word(Word::Operator(Sign::Equal))?;
    let value = source.expr(alloc)?;
    Ok(Defined::new(pattern, declared, value))
}

/// One definition more, whose pattern was read.
pub fn push_defined(
    alloc: Global,
    source: &mut Source,
    pattern: Box<Pattern>,
    definitions: &mut Vec<Defined>,
) -> Result<(), Halt<NoTree>>
    ensures { Reads result (λ _. definition_rows definitions.new.items) (one_added (definition_rows definitions.old.items) (defined_in (pattern_view pattern.value) source.old)) source.new }
{
    Ok(definitions.push(defined(alloc, source, pattern)?)?)
}

/// One definition more.
fn push_definition(
    alloc: Global,
    source: &mut Source,
    definitions: &mut Vec<Defined>,
) -> Result<(), Halt<NoTree>>
    ensures { Reads result (λ _. definition_rows definitions.new.items) (one_added (definition_rows definitions.old.items) (definition_in source.old)) source.new }
{
    let pattern = source.boxed_pattern(alloc)?;
    push_defined(alloc, source, pattern, definitions)
}

/// At most so many further definitions, each behind a comma.
pub fn further_definitions(
    alloc: Global,
    source: &mut Source,
    turns: usize,
    definitions: Vec<Defined>,
) -> Result<Vec<Defined>, Halt<NoTree>>
    ensures { Reads result definitions_view (added (definition_rows definitions.items) (further word_is.Comma definition_in turns source.old)) source.new }
{
    let mut definitions = definitions;
    for _turn in 0..turns {
        let Some(_place) = source.take_word(Word::Comma) else {
            return Ok(definitions);
        };
        push_definition(alloc, source, &mut definitions)?;
    }
    Err(NO_TREE)
}
