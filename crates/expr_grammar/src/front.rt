// The front of a text that is read as a tree.

ghost use Rattle.std.specs.Prelude.{◌≡◌, ◌<◌, ◌^◌, length, Err, IfOk, OnOk};
ghost use Rattle.vdm_kinds.specs.declared.spec_fault.SpecFault.{SpecFault};
ghost use Rattle.grammar_fronts.specs.Fronts.{front_of};
ghost use Rattle.grammar_tokens.specs.View.{token_views};
ghost use Rattle.token_reader.specs.Read.{KeepsNames};
ghost use Rattle.word_reader.specs.Words.{words_from};
ghost use Rattle.text_answers.specs.Answers.{AreOf, names_read};
ghost use Rattle.text_fronts.specs.FrontRead.{IsDeep, IsFrontRead};

use front_reader::front_of;
use grammar_fronts::Kind;
use std::alloc::Global;
use text_fronts::FrontRead;
use vdm_kinds::{Halt, SpecFault};
use vdm_lexer::Lexeme;
use vdm_names::Names;
use word_reader::words_of;

/// The longest viable front of a text from the lexeme with this number on. It is refused where a word of it is too deep.
pub fn read_front(
    alloc: Global,
    kind: Kind,
    text: &[u8],
    lexemes: &[Lexeme],
    at: usize,
    names: &mut Names,
) -> Result<FrontRead, Halt<SpecFault>>
    requires lexemes { AreOf text.now lexemes.now }
    requires at { at < length lexemes.now }
    requires names { length names.old < 2 ^ 31 }
    ensures read { IfOk result (λ read. IsFrontRead (front_of kind (words_from text.now lexemes.now at)) names.old text.now lexemes.now at (words_from text.now lexemes.now at) (token_views read.tokens.items) read.next read.fault) }
    ensures deep { (fault : SpecFault) → result ≡ Err (Halt.Of fault) → IsDeep (front_of kind (words_from text.now lexemes.now at)) fault }
    ensures names { OnOk result (names.new ≡ names_read kind names.old text.now lexemes.now at) }
    ensures kept { KeepsNames names.old names.new }
{
    let words = words_of(alloc, text, lexemes, at)?;
    let front = front_of(alloc, kind, &words)?;
    text_fronts::read_front(alloc, front, text, lexemes, at, &words, names)
}
