// Local variables of a block.

ghost use Rattle.std.specs.Prelude.{◌≡◌, [], map};
ghost use Rattle.grammar_words.specs.declared.word.Word.TheVariants as word_is;
ghost use Rattle.vdm_tree.specs.StmtView.{local_view, dcl_view};
ghost use Rattle.stmt_reading.specs.Leaves.{further, list_in, turns_for};
ghost use Rattle.stmt_reading.specs.Statements.{local_in, dcls_in};
ghost use Rattle.leaf_reader.specs.Reads.{Reads};
ghost use Rattle.stmt_parts.specs.Lists.{added, one_added, locals_view, dcls_view, dcl_in};

use crate::optional::expr_behind;
use grammar_words::Word;
use leaf_reader::{NO_TREE, NoTree, Source};
use std::alloc::Global;
use vdm_kinds::{Halt, Place};
use vdm_tree::{Dcl, Local};

/// A local variable.
fn local(alloc: Global, source: &mut Source) -> Result<Local, Halt<NoTree>>
    ensures { Reads result local_view (local_in source.old) source.new }
{
    let name = source.name()?;
    source.word(Word::Colon)?;
    let declared = source.type_expr(alloc)?;
    let initial = expr_behind(alloc, source, Word::Becomes)?;
    Ok(Local {
        name: name.name,
        name_place: name.place,
        declared,
        initial,
    })
}

/// One local variable more.
fn push_local(
    alloc: Global,
    source: &mut Source,
    locals: &mut Vec<Local>,
) -> Result<(), Halt<NoTree>>
    ensures { Reads result (λ _. map local_view locals.new.items) (one_added (map local_view locals.old.items) (local_in source.old)) source.new }
{
    Ok(locals.push(local(alloc, source)?)?)
}

/// At most so many further local variables, each behind a comma.
fn further_locals(
    alloc: Global,
    source: &mut Source,
    turns: usize,
    locals: Vec<Local>,
) -> Result<Vec<Local>, Halt<NoTree>>
    ensures { Reads result locals_view (added (map local_view locals.items) (further word_is.Comma local_in turns source.old)) source.new }
{
    let mut locals = locals;
    for _turn in 0..turns {
        let Some(_place) = source.take_word(Word::Comma) else {
            return Ok(locals);
        };
        push_local(alloc, source, &mut locals)?;
    }
    Err(NO_TREE)
}

/// One local variable or more, with a comma between each two.
fn locals(alloc: Global, source: &mut Source) -> Result<Vec<Local>, Halt<NoTree>>
    ensures { Reads result locals_view (list_in word_is.Comma local_in source.old) source.new }
{
    // Each takes a token or more, so that there are turns enough.
    let turns = source.len() + 1;
    let mut locals = Vec::new(alloc);
    push_local(alloc, source, &mut locals)?;
    further_locals(alloc, source, turns, locals)
}

/// The local variables behind one `dcl`, and its `;`.
fn dcl(alloc: Global, source: &mut Source, place: Place) -> Result<Dcl, Halt<NoTree>>
    ensures { Reads result dcl_view (dcl_in place source.old) source.new }
{
    let locals = locals(alloc, source)?;
    source.word(Word::Semicolon)?;
    Ok(Dcl { locals, place })
}

/// One `dcl` more.
fn push_dcl(
    alloc: Global,
    source: &mut Source,
    place: Place,
    dcls: &mut Vec<Dcl>,
) -> Result<(), Halt<NoTree>>
    ensures { Reads result (λ _. map dcl_view dcls.new.items) (one_added (map dcl_view dcls.old.items) (dcl_in place source.old)) source.new }
{
    Ok(dcls.push(dcl(alloc, source, place)?)?)
}

/// Each `dcl` at the beginning of a block, behind none.
fn listed_dcls(alloc: Global, source: &mut Source) -> Result<Vec<Dcl>, Halt<NoTree>>
    ensures { Reads result dcls_view (added [] (dcls_in (turns_for source.old) source.old)) source.new }
{
    let mut dcls = Vec::new(alloc);
    for _turn in 0..source.len() + 1 {
        let Some(place) = source.take_word(Word::Dcl) else {
            return Ok(dcls);
        };
        push_dcl(alloc, source, place, &mut dcls)?;
    }
    Err(NO_TREE)
}

/// Each `dcl` at the beginning of a block.
pub fn dcls(alloc: Global, source: &mut Source) -> Result<Vec<Dcl>, Halt<NoTree>>
    ensures { Reads result dcls_view (dcls_in (turns_for source.old) source.old) source.new }
{
    listed_dcls(alloc, source)
}
