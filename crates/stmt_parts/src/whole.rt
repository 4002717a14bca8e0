// Statements with no statement in them.

ghost use Rattle.std.specs.Prelude.{◌≡◌, List, Option, Some};
ghost use Rattle.grammar_words.specs.Tokens.{Token};
ghost use Rattle.grammar_words.specs.declared.word.Word.TheVariants as word_is;
ghost use Rattle.abstract_syntax.specs.Expressions.{ExprTree};
ghost use Rattle.abstract_syntax.specs.Statements.{AssignmentTree, assign_together, returns, exits, start_thread, start_threads};
ghost use Rattle.vdm_tree.specs.StmtView.{boxed_stmt};
ghost use Rattle.stmt_reading.specs.Leaves.{expr_in, list_in, onto};
ghost use Rattle.stmt_reading.specs.Statements.{assignment_in, bracketed_in, value_in};
ghost use Rattle.leaf_reader.specs.Reads.{Reads};

use crate::assignments::assignments;
use crate::boxes::boxed;
use crate::optional::value;
use grammar_words::Word;
use leaf_reader::{NoTree, Source};
use std::alloc::Global;
use vdm_kinds::{Halt, Place};
use vdm_tree::Stmt;

/// `atomic`, behind the word.
pub fn together(alloc: Global, source: &mut Source, place: Place) -> Result<Box<Stmt>, Halt<NoTree>>
    ensures { Reads result boxed_stmt (bracketed_in (list_in word_is.Semicolon assignment_in) (λ (found : List AssignmentTree). assign_together found place) source.old) source.new }
{
    source.word(Word::OpenRound)?;
    let found = assignments(alloc, source)?;
    source.word(Word::CloseRound)?;
    Ok(boxed(alloc, Stmt::assign_together(found, place))?)
}

/// `return`, behind the word.
pub fn returned(alloc: Global, source: &mut Source, place: Place) -> Result<Box<Stmt>, Halt<NoTree>>
    ensures { Reads result boxed_stmt (onto (value_in source.old) (λ (value : Option ExprTree) (rest : List Token). Some (returns value place, rest))) source.new }
{
    let value = value(alloc, source)?;
    Ok(boxed(alloc, Stmt::return_of(value, place))?)
}

/// `exit`, behind the word.
pub fn exited(alloc: Global, source: &mut Source, place: Place) -> Result<Box<Stmt>, Halt<NoTree>>
    ensures { Reads result boxed_stmt (onto (value_in source.old) (λ (value : Option ExprTree) (rest : List Token). Some (exits value place, rest))) source.new }
{
    let value = value(alloc, source)?;
    Ok(boxed(alloc, Stmt::exit(value, place))?)
}

/// `start`, behind the word.
pub fn started(alloc: Global, source: &mut Source, place: Place) -> Result<Box<Stmt>, Halt<NoTree>>
    ensures { Reads result boxed_stmt (bracketed_in expr_in (λ (e : ExprTree). start_thread e place) source.old) source.new }
{
    source.word(Word::OpenRound)?;
    let object = source.expr(alloc)?;
    source.word(Word::CloseRound)?;
    Ok(boxed(alloc, Stmt::start(object, place))?)
}

/// `startlist`, behind the word.
pub fn all_started(
    alloc: Global,
    source: &mut Source,
    place: Place,
) -> Result<Box<Stmt>, Halt<NoTree>>
    ensures { Reads result boxed_stmt (bracketed_in expr_in (λ (e : ExprTree). start_threads e place) source.old) source.new }
{
    source.word(Word::OpenRound)?;
    let objects = source.expr(alloc)?;
    source.word(Word::CloseRound)?;
    Ok(boxed(alloc, Stmt::start_list(objects, place))?)
}
