// Reads how far words are the beginning of something.

ghost use Rattle.std.specs.Prelude.{◌≡◌, IfOk};
ghost use Rattle.grammar_fronts.specs.Fronts.{front_of, front_from};

use crate::reading::{Reading, Step};
use grammar_fronts::{Front, Kind, Reach};
use grammar_words::PlacedWord;
use std::alloc::Global;
use vdm_kinds::{OutOfMemory, Place};

/// How far the words are the beginning of what they are to be read as. It takes memory for what is wanted and for the nodes
/// that are open, and time for each word once.
pub fn front_of(alloc: Global, kind: Kind, words: &[PlacedWord]) -> Result<Front, OutOfMemory>
    ensures { IfOk result (λ front. front ≡ front_of kind words.now) }
{
    let Some(first) = words.first() else {
        return Ok(Front::Reaches(Reach {
            words: 0,
            whole: false,
            left_out: false,
        }));
    };
    let mut reading = Reading::new(alloc, kind)?;
    read_on(&mut reading, first.place, words)
}

/// How far the words go on with what was begun.
fn read_on(reading: &mut Reading, first: Place, words: &[PlacedWord]) -> Result<Front, OutOfMemory>
    ensures { IfOk result (λ front. front ≡ front_from 0 first words.now reading.old.wanted reading.old.nodes) }
{
    let mut last = first;
    for (count, word) in words.iter().enumerate() {
        match reading.step(count, last, *word)? {
            Step::Taken => last = word.place,
            Step::Found(front) => return Ok(front),
        }
    }
    reading.finish(words.len(), last)
}
