// Threads.

ghost use Rattle.std.specs.Prelude.{option_map};
ghost use Rattle.stmt_reading.specs.Definitions.{periodic_in, phase_in, thread_in};
ghost use Rattle.vdm_tree.specs.ClassView.{phase_view, thread_view};
ghost use Rattle.leaf_reader.specs.Reads.{Reads};

use grammar_words::Word;
use leaf_reader::{NoTree, Source};
use std::alloc::Global;
use stmt_builder::read_stmt;
use vdm_kinds::{Halt, Place};
use vdm_tree::{Phase, Thread};

/// Takes the thread of a class.
pub fn read_thread(alloc: Global, source: &mut Source) -> Result<Thread, Halt<NoTree>>
    ensures { Reads result thread_view (thread_in source.old) source.new }
{
    if let Some(place) = source.take_word(Word::Periodic) {
        return periodic(alloc, place, source);
    }
    Ok(Thread::Procedural(read_stmt(alloc, source)?))
}

/// Takes a periodic thread behind its first word, which stands there.
fn periodic(alloc: Global, place: Place, source: &mut Source) -> Result<Thread, Halt<NoTree>>
    ensures { Reads result thread_view (periodic_in place source.old) source.new }
{
    source.word(Word::OpenRound)?;
    let period = source.expr(alloc)?;
    let phase = phase(alloc, source)?;
    source.word(Word::CloseRound)?;
    source.word(Word::OpenRound)?;
    let operation = source.name()?;
    source.word(Word::CloseRound)?;
    Ok(Thread::Periodic(period, phase, operation.name, operation.place, place))
}

/// Takes what may stand behind the period of a thread.
fn phase(alloc: Global, source: &mut Source) -> Result<Option<Phase>, Halt<NoTree>>
    ensures { Reads result (option_map phase_view) (phase_in source.old) source.new }
{
    if source.take_word(Word::Comma).is_none() {
        return Ok(None);
    }
    let jitter = source.expr(alloc)?;
    source.word(Word::Comma)?;
    let delay = source.expr(alloc)?;
    source.word(Word::Comma)?;
    let offset = source.expr(alloc)?;
    Ok(Some(Phase {
        jitter,
        delay,
        offset,
    }))
}
