// The longest front of tokens that is viable.

ghost use Rattle.std.specs.Prelude.{◌≡◌, ◌+◌, ◌++◌, Some, None, if◌then◌else◌, length, reverse, take, drop, OnOk, IfOk};
ghost use Rattle.grammar_fronts.specs.Turns.{wanted_by};
ghost use Rattle.grammar_fronts.specs.Viable.{after};
ghost use Rattle.grammar_tokens.specs.View.{token_views};
ghost use Rattle.front_tables.specs.View.{turn_view};
ghost use Rattle.stmt_reading.specs.Leaves.{front_length};

use crate::source::Source;
use crate::words::word_of;
use front_reader::{Met, WantedStack};
use front_tables::Turn;
use grammar_fronts::Kind;
use grammar_tokens::Token;
use grammar_words::Word;
use std::alloc::Global;
use vdm_kinds::OutOfMemory;

/// What a word goes on with, begins or has behind it is wanted before all else.
fn put(wanted: &mut WantedStack, turn: Turn) -> Result<(), OutOfMemory>
    ensures { OnOk result (wanted.new ≡ wanted_by (turn_view turn) ++ wanted.old) }
{
    match turn {
        Turn::GoesOn(parts) | Turn::Adds { pull: _, parts } => wanted.put(parts),
        Turn::Begins {
            pull: _,
            parts,
            behind,
            more,
        } => {
            wanted.put(more)?;
            wanted.put(behind)?;
            wanted.put(parts)
        }
        Turn::Joins {
            left: _,
            right: _,
            parts,
            behind,
        } => {
            wanted.put(behind)?;
            wanted.put(parts)
        }
    }
}

/// Whether the word is taken by what is wanted, which then is what is wanted behind it.
fn takes(wanted: &mut WantedStack, word: Word) -> Result<bool, OutOfMemory>
    ensures { IfOk result (λ taken. after word wanted.old ≡ if taken then Some wanted.new else None) }
{
    match wanted.meet(word) {
        Met::Takes(turn) => {
            put(wanted, turn)?;
            Ok(true)
        }
        Met::Refuses {
            left: _left,
            left_out: _left_out,
        } => Ok(false),
    }
}

/// How many tokens stand behind the longest front that is viable, of which the first token is the last of these.
fn behind_front(alloc: Global, kind: Kind, items: &[Token]) -> Result<usize, OutOfMemory>
    ensures { IfOk result (λ left. left + front_length kind (reverse (token_views items.now)) ≡ length items.now) }
{
    let mut wanted = WantedStack::start(alloc, kind)?;
    let mut rest = items;
    while let Some((next, others)) = rest.split_last() {
        if !takes(&mut wanted, word_of(next))? {
            break;
        }
        rest = others;
    }
    Ok(rest.len())
}

/// Takes the longest front that is viable.
pub(crate) fn take_front(
    alloc: Global,
    kind: Kind,
    source: &mut Source,
) -> Result<Vec<Token>, OutOfMemory>
    ensures front { IfOk result (λ front. token_views front.items ≡ take (front_length kind source.old) source.old) }
    ensures rest { OnOk result (source.new ≡ drop (front_length kind source.old) source.old) }
{
    let left = behind_front(alloc, kind, &source.items)?;
    let mut front = source.items.split_off(left)?;
    front.reverse();
    Ok(front)
}
