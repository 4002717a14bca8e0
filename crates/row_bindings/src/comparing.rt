// `bindings SEED COUNT`: finds the first binding of so many patterns with values, and all their bindings one after the other. How
// many of them match, miss, and have different bindings; or else the request of the first one for which the two are not the same.

use crate::inputs::Inputs;
use patterns::BindList;
use plain_patterns::bindings;
use row_desk::Desk;
use row_patterns::Asked;
use row_words::Line;
use std::alloc::Global;
use vdm_kinds::{Halt, Name, RunFault};
use vdm_values::Value;

/// What comes of a pattern and a value.
#[derive(Clone, Copy)]
enum Outcome {
    /// The first binding that was found is not the first of all.
    Differs,
    /// There is no binding.
    Misses,
    /// There is one, or several that are the same.
    Matches,
    /// Some binding is not the first.
    HasSeveral,
}

/// How many of each there are.
#[derive(Drop)]
struct Tally {
    misses: u64,
    matches: u64,
    several: u64,
}

/// Answers a request; tells whether the word is one of this library's.
pub fn answer(desk: &mut Desk, line: &mut Line<'_>, word: &str) -> bool {
    if word != "bindings" {
        return false;
    }
    let seed = line.whole();
    let mut inputs = Inputs::new(line.alloc(), seed);
    compare(desk, line, &mut inputs);
    true
}

fn compare(desk: &mut Desk, line: &mut Line<'_>, inputs: &mut Inputs) {
    let mut tally = Tally {
        misses: 0,
        matches: 0,
        several: 0,
    };
    for _input in 0..line.number() {
        if !is_same(desk, line, inputs, &mut tally) {
            return;
        }
    }
    say_tally(line, &tally);
}

// Says what differs, where the next input does.
fn is_same(desk: &mut Desk, line: &mut Line<'_>, inputs: &mut Inputs, tally: &mut Tally) -> bool {
    match inputs.next(line.alloc()) {
        Ok(words) => is_same_for(desk, line, words.as_str(), tally),
        Err(_) => {
            line.fall_short();
            false
        }
    }
}

fn is_same_for(desk: &mut Desk, line: &mut Line<'_>, words: &str, tally: &mut Tally) -> bool {
    match judged(desk, line, words) {
        Outcome::Differs => {
            line.say("differs: bind ");
            line.say(words);
            return false;
        }
        Outcome::Misses => tally.misses = tally.misses.saturating_add(1),
        Outcome::Matches => tally.matches = tally.matches.saturating_add(1),
        Outcome::HasSeveral => tally.several = tally.several.saturating_add(1),
    }
    true
}

fn judged(desk: &mut Desk, line: &mut Line<'_>, words: &str) -> Outcome {
    let mut input = Line::new(line.alloc(), words);
    let asked = Asked::read(desk, &mut input);
    if input.is_short() {
        line.fall_short();
    }
    if input.answer() != "" {
        line.refuse();
    }
    match compared(line.alloc(), &asked) {
        Ok(outcome) => outcome,
        Err(halt) => {
            line.stop(halt);
            Outcome::Differs
        }
    }
}

fn compared(alloc: Global, asked: &Asked) -> Result<Outcome, Halt<RunFault>> {
    let first = asked.first(alloc)?;
    let all = bindings(
        alloc,
        &asked.pattern,
        &asked.value,
        asked.given.as_slice(),
        asked.types.scope,
        &asked.types,
    )?;
    Ok(told(first, all.as_slice()))
}

fn told(first: Option<BindList>, all: &[Vec<(Name, Value)>]) -> Outcome {
    match first {
        Some(list) => told_of(list.as_slice(), all),
        None => {
            if all.len() == 0 {
                Outcome::Misses
            } else {
                Outcome::Differs
            }
        }
    }
}

fn told_of(first: &[(Name, Value)], all: &[Vec<(Name, Value)>]) -> Outcome {
    let [head, others @ ..] = all else {
        return Outcome::Differs;
    };
    if head.as_slice() != first {
        return Outcome::Differs;
    }
    for other in others {
        if other.as_slice() != first {
            return Outcome::HasSeveral;
        }
    }
    Outcome::Matches
}

fn say_tally(line: &mut Line<'_>, tally: &Tally) {
    line.say_number(tally.matches.saturating_add(tally.several));
    line.say(" match, ");
    line.say_number(tally.misses);
    line.say(" miss, ");
    line.say_number(tally.several);
    line.say(" have several bindings");
}
