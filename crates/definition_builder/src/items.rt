// Lists of definitions.

ghost use Rattle.std.specs.Prelude.{◌≡◌, ℕ, Bool, List};
ghost use Rattle.vdm_kinds.specs.declared.name.Name.{Name};
ghost use Rattle.grammar_words.specs.declared.word.Word.{Word};
ghost use Rattle.grammar_words.specs.Tokens.{Token};
ghost use Rattle.stmt_reading.specs.Leaves.{Read};
ghost use Rattle.stmt_reading.specs.Definitions.{items_in, next_word, begins_head, type_def_in, value_def_in, begins_variable, variable_item_in, function_in, operation_in, begins_sync, sync_in};
ghost use Rattle.abstract_syntax.specs.Classes.{TypeDefTree, ValueDefTree, VariableItem as VariableItemTree, FunctionTree, OperationTree, SyncTree};
ghost use Rattle.expr_tree.specs.TypeDefView.{type_def_view};
ghost use Rattle.vdm_tree.specs.ClassView.{value_def_view, variable_item_view, function_view, operation_view, sync_view};
ghost use Rattle.leaf_reader.specs.Reads.{Reads};
ghost use Rattle.definition_parts.specs.Parts.{items_view};

use crate::functions::function;
use crate::operations::operation;
use crate::sync::{begins_sync, sync};
use crate::types::type_def;
use crate::values::value_def;
use crate::variables::{begins_variable, variable_item};
use definition_parts::begins_head;
use grammar_words::Word;
use leaf_reader::{NO_TREE, NoTree, Source};
use std::alloc::Global;
use vdm_kinds::{Halt, Name};
use vdm_tree::{FunctionDef, OpDef, Sync, TypeDef, ValueDef, VariableItem};

/// What a block is a list of.
pub trait Item: Drop {
    ghost Tree: { Type 0 };

    ghost view: { Self → Self.Tree };

    ghost begins: { Word → Bool };

    ghost reading: { ℕ → Name → List Token → Read Self.Tree };

    /// Whether an item may begin with the word.
    fn begins(word: Word) -> bool
        ensures { result ≡ begins word };

    /// Takes an item in the class of this name; so many turns has what is in it.
    fn read(
        alloc: Global,
        turns: usize,
        class: Name,
        source: &mut Source,
    ) -> Result<Self, Halt<NoTree>>
        ensures { Reads result view (reading turns class source.old) source.new };
}

/// Takes items while the next word begins one, fewer than there are turns. A `;` stands between each two, and may stand
/// behind the last.
pub fn read_items<T: Item>(
    alloc: Global,
    turns: usize,
    class: Name,
    source: &mut Source,
) -> Result<Vec<T>, Halt<NoTree>>
    ensures { Reads result (items_view T.view) (items_in T.begins (T.reading turns class) turns source.old) source.new }
{
    let mut items = Vec::new(alloc);
    for _turn in 0..turns {
        if !begins_item::<T>(source) {
            return Ok(items);
        }
        items.push(T::read(alloc, turns, class, source)?)?;
        let Some(_semicolon) = source.take_word(Word::Semicolon) else {
            return Ok(items);
        };
    }
    Err(NO_TREE)
}

/// Whether the next word begins an item.
fn begins_item<T: Item>(source: &Source) -> bool
    ensures { result ≡ T.begins (next_word source.now) }
{
    match source.next_word() {
        Some(word) => T::begins(word),
        None => T::begins(Word::TextEnd),
    }
}

impl Item for TypeDef {
    ghost Tree = { TypeDefTree };

    ghost view = { type_def_view };

    ghost begins = { begins_head };

    ghost reading = { λ turns class. type_def_in turns class };

    fn begins(word: Word) -> bool {
        begins_head(word)
    }

    fn read(
        alloc: Global,
        turns: usize,
        class: Name,
        source: &mut Source,
    ) -> Result<Self, Halt<NoTree>> {
        type_def(alloc, turns, class, source)
    }
}

impl Item for ValueDef {
    ghost Tree = { ValueDefTree };

    ghost view = { value_def_view };

    ghost begins = { begins_head };

    ghost reading = { λ _ _. value_def_in };

    fn begins(word: Word) -> bool {
        begins_head(word)
    }

    fn read(
        alloc: Global,
        _turns: usize,
        _class: Name,
        source: &mut Source,
    ) -> Result<Self, Halt<NoTree>> {
        value_def(alloc, source)
    }
}

impl Item for VariableItem {
    ghost Tree = { VariableItemTree };

    ghost view = { variable_item_view };

    ghost begins = { begins_variable };

    ghost reading = { λ _ _. variable_item_in };

    fn begins(word: Word) -> bool {
        begins_variable(word)
    }

    fn read(
        alloc: Global,
        _turns: usize,
        _class: Name,
        source: &mut Source,
    ) -> Result<Self, Halt<NoTree>> {
        variable_item(alloc, source)
    }
}

impl Item for FunctionDef {
    ghost Tree = { FunctionTree };

    ghost view = { function_view };

    ghost begins = { begins_head };

    ghost reading = { λ _ _. function_in };

    fn begins(word: Word) -> bool {
        begins_head(word)
    }

    fn read(
        alloc: Global,
        _turns: usize,
        _class: Name,
        source: &mut Source,
    ) -> Result<Self, Halt<NoTree>> {
        function(alloc, source)
    }
}

impl Item for OpDef {
    ghost Tree = { OperationTree };

    ghost view = { operation_view };

    ghost begins = { begins_head };

    ghost reading = { λ _ _. operation_in };

    fn begins(word: Word) -> bool {
        begins_head(word)
    }

    fn read(
        alloc: Global,
        _turns: usize,
        _class: Name,
        source: &mut Source,
    ) -> Result<Self, Halt<NoTree>> {
        operation(alloc, source)
    }
}

impl Item for Sync {
    ghost Tree = { SyncTree };

    ghost view = { sync_view };

    ghost begins = { begins_sync };

    ghost reading = { λ _ _. sync_in };

    fn begins(word: Word) -> bool {
        begins_sync(word)
    }

    fn read(
        alloc: Global,
        _turns: usize,
        _class: Name,
        source: &mut Source,
    ) -> Result<Self, Halt<NoTree>> {
        sync(alloc, source)
    }
}
