// Clauses of synchronisation.

ghost use Rattle.std.specs.Prelude.{◌≡◌};
ghost use Rattle.stmt_reading.specs.Definitions.{begins_sync, mutex_in, permission_in, sync_in};
ghost use Rattle.vdm_tree.specs.ClassView.{sync_view};
ghost use Rattle.leaf_reader.specs.Reads.{Reads};

use definition_parts::read_names;
use grammar_words::Word;
use leaf_reader::{NoTree, Source};
use std::alloc::Global;
use vdm_kinds::{Halt, Place, Sign};
use vdm_tree::Sync;

/// Whether a clause may begin with the word.
pub(crate) fn begins_sync(word: Word) -> bool
    ensures { result ≡ begins_sync word }
{
    match word {
        Word::Per | Word::Mutex => true,
        _ => false,
    }
}

/// Takes a clause of synchronisation.
pub(crate) fn sync(alloc: Global, source: &mut Source) -> Result<Sync, Halt<NoTree>>
    ensures { Reads result sync_view (sync_in source.old) source.new }
{
    if let Some(place) = source.take_word(Word::Per) {
        return permission(alloc, place, source);
    }
    let place = source.word(Word::Mutex)?;
    mutex(alloc, place, source)
}

/// Takes a permission behind its first word, which stands there.
fn permission(alloc: Global, place: Place, source: &mut Source) -> Result<Sync, Halt<NoTree>>
    ensures { Reads result sync_view (permission_in place source.old) source.new }
{
    let operation = source.name()?;
    source.word(Word::Operator(Sign::Implies))?;
    let condition = source.expr(alloc)?;
    Ok(Sync::Permission(operation.name, operation.place, condition, place))
}

/// Takes a mutual exclusion behind its first word, which stands there.
fn mutex(alloc: Global, place: Place, source: &mut Source) -> Result<Sync, Halt<NoTree>>
    ensures { Reads result sync_view (mutex_in place source.old) source.new }
{
    source.word(Word::OpenRound)?;
    if source.take_word(Word::All).is_some() {
        source.word(Word::CloseRound)?;
        return Ok(Sync::MutexAll(place));
    }
    let operations = read_names(alloc, source)?;
    source.word(Word::CloseRound)?;
    Ok(Sync::MutexOf(operations, place))
}
