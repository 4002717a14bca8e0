// The front of a text.

ghost use Rattle.std.specs.Prelude.{◌≡◌, ◌<◌, ◌^◌, length, take, drop, Err, IfOk, OnOk};
ghost use Rattle.vdm_kinds.specs.declared.spec_fault.SpecFault.{SpecFault};
ghost use Rattle.grammar_tokens.specs.View.{token_views};
ghost use Rattle.token_reader.specs.Read.{AreReadable, KeepsNames, names_behind};
ghost use Rattle.text_answers.specs.Answers.{AreOf, fault_before, taken_words};
ghost use Rattle.word_reader.specs.Words.{words_from};
ghost use Rattle.text_fronts.specs.FrontRead.{IsDeep, IsFrontRead, IsReach};

use crate::pieces::{behind, first_place, lexemes_behind, taken, widths};
use grammar_fronts::{Front, Reach};
use grammar_tokens::Token;
use grammar_words::PlacedWord;
use std::alloc::Global;
use token_reader::tokens_of;
use vdm_kinds::{Halt, OutOfMemory, SpecFault, SpecKind};
use vdm_lexer::Lexeme;
use vdm_names::Names;

/// What was read of a text, before its tree.
#[derive(Drop)]
pub struct FrontRead {
    /// The tokens of the longest viable front.
    pub tokens: Vec<Token>,
    /// The number of the lexeme behind it.
    pub next: usize,
    /// Why the text is refused, if the front is no tree.
    pub fault: SpecFault,
}

/// The tokens of this front of the words that a text has from the lexeme with this number on. It is refused where a word of
/// it is too deep.
pub fn read_front(
    alloc: Global,
    front: Front,
    text: &[u8],
    lexemes: &[Lexeme],
    at: usize,
    words: &[PlacedWord],
    names: &mut Names,
) -> Result<FrontRead, Halt<SpecFault>>
    requires lexemes { AreOf text.now lexemes.now }
    requires at { at < length lexemes.now }
    requires words { words.now ≡ words_from text.now lexemes.now at }
    requires names { length names.old < 2 ^ 31 }
    ensures read { IfOk result (λ read. IsFrontRead front names.old text.now lexemes.now at words.now (token_views read.tokens.items) read.next read.fault) }
    ensures deep { (fault : SpecFault) → result ≡ Err (Halt.Of fault) → IsDeep front fault }
    ensures names { OnOk result (names.new ≡ names_behind names.old text.now (drop at lexemes.now) (taken_words front words.now)) }
    ensures kept { KeepsNames names.old names.new }
{
    match front {
        Front::TooDeep(place) => Err(Halt::Of(SpecFault {
            kind: SpecKind::TooDeep,
            place,
        })),
        Front::Reaches(reach) => Ok(read_reach(alloc, reach, text, lexemes, at, words, names)?),
    }
}

/// The words of a text, of which so many are read.
fn read_reach(
    alloc: Global,
    reach: Reach,
    text: &[u8],
    lexemes: &[Lexeme],
    at: usize,
    words: &[PlacedWord],
    names: &mut Names,
) -> Result<FrontRead, OutOfMemory>
    requires readable { AreReadable text.now lexemes.now }
    requires at { at < 2 ^ 31 }
    requires few { length words.now < 2 ^ 31 }
    requires names { length names.old < 2 ^ 31 }
    ensures read { IfOk result (λ read. IsReach names.old text.now lexemes.now at words.now reach (token_views read.tokens.items) read.next read.fault) }
    ensures names { OnOk result (names.new ≡ names_behind names.old text.now (drop at lexemes.now) (take reach.words words.now)) }
    ensures kept { KeepsNames names.old names.new }
{
    let front = taken(words, reach.words);
    let tokens = tokens_of(alloc, text, lexemes_behind(lexemes, at), front, names)?;
    Ok(FrontRead {
        tokens,
        next: at + widths(front),
        fault: fault_before(reach.left_out, behind(words, reach.words)),
    })
}

/// The fault of words that no tree goes on with.
pub fn fault_before(left_out: bool, words: &[PlacedWord]) -> SpecFault
    ensures { result ≡ fault_before left_out words.now }
{
    let kind = if left_out {
        SpecKind::LeftOut
    } else {
        SpecKind::SyntaxFault
    };
    SpecFault {
        kind,
        place: first_place(words),
    }
}
