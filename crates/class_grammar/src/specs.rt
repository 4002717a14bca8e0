// Specifications.

ghost use Rattle.std.specs.Prelude.{◌≡◌, ◌<◌, ◌^◌, Ok, Err, IfOk, OnOk, length, option_map, take};
ghost use Rattle.vdm_kinds.specs.declared.spec_fault.SpecFault.{SpecFault};
ghost use Rattle.grammar_fronts.specs.declared.front.Front.TheVariants.{Reaches};
ghost use Rattle.grammar_tokens.specs.View.{token_views};
ghost use Rattle.stmt_reading.specs.Classes.{spec_of};
ghost use Rattle.vdm_tree.specs.ClassView.{spec_view};
ghost use Rattle.token_reader.specs.Read.{KeepsNames};
ghost use Rattle.text_answers.specs.Answers.{AreOf};
ghost use Rattle.spec_answers.specs.Answers.{is_end, is_text_end, spec_answer, spec_names, spec_read};

use class_builder::build_spec;
use grammar_fronts::{Front, Reach};
use grammar_tokens::Token;
use grammar_words::{PlacedWord, Word};
use std::alloc::Global;
use stmt_front_reader::front_of_tokens;
use text_fronts::{behind, fault_before};
use token_reader::tokens_of;
use vdm_kinds::{Halt, OutOfMemory, SpecFault, SpecKind};
use vdm_lexer::Lexeme;
use vdm_names::Names;
use vdm_tree::Spec;
use word_reader::words_of;

/// The specification that a text is as a whole. Its identifiers are given to the names in text order; after a refusal there
/// may be more names.
pub fn spec_of_tokens(
    alloc: Global,
    text: &[u8],
    tokens: &[Lexeme],
    names: &mut Names,
) -> Result<Spec, Halt<SpecFault>>
    requires tokens { AreOf text.now tokens.now }
    requires names { length names.old < 2 ^ 31 }
    ensures tree { IfOk result (λ spec. spec_answer names.old text.now tokens.now ≡ Ok (spec_view spec)) }
    ensures refused { (fault : SpecFault) → result ≡ Err (Halt.Of fault) → spec_answer names.old text.now tokens.now ≡ Err fault }
    ensures names { OnOk result (names.new ≡ spec_names names.old text.now tokens.now) }
    ensures kept { KeepsNames names.old names.new }
{
    let words = words_of(alloc, text, tokens, 0)?;
    let all = tokens_of(alloc, text, tokens, &words, names)?;
    let front = front_of_tokens(alloc, &all)?;
    spec_with_front(alloc, front, &words, all)
}

/// The specification that all words are, by this front of them.
fn spec_with_front(
    alloc: Global,
    front: Front,
    words: &[PlacedWord],
    tokens: Vec<Token>,
) -> Result<Spec, Halt<SpecFault>>
    ensures tree { IfOk result (λ spec. spec_read words.now (token_views tokens.items) front ≡ Ok (spec_view spec)) }
    ensures refused { (fault : SpecFault) → result ≡ Err (Halt.Of fault) → spec_read words.now (token_views tokens.items) front ≡ Err fault }
{
    match front {
        Front::TooDeep(place) => Err(Halt::Of(SpecFault {
            kind: SpecKind::TooDeep,
            place,
        })),
        Front::Reaches(reach) => spec_of_front(alloc, reach, words, tokens),
    }
}

/// The specification that the front of all words is, if only their end stands behind it; else the fault that stands there.
fn spec_of_front(
    alloc: Global,
    reach: Reach,
    words: &[PlacedWord],
    tokens: Vec<Token>,
) -> Result<Spec, Halt<SpecFault>>
    ensures tree { IfOk result (λ spec. spec_read words.now (token_views tokens.items) (Reaches reach) ≡ Ok (spec_view spec)) }
    ensures refused { (fault : SpecFault) → result ≡ Err (Halt.Of fault) → spec_read words.now (token_views tokens.items) (Reaches reach) ≡ Err fault }
{
    let rest = behind(words, reach.words);
    let told = fault_before(reach.left_out, rest);
    if !is_end(rest) {
        return Err(Halt::Of(told));
    }
    match front_spec(alloc, reach.words, tokens)? {
        Some(spec) => Ok(spec),
        None => Err(Halt::Of(told)),
    }
}

/// The specification that the first so many tokens are, if they are one.
fn front_spec(alloc: Global, count: usize, tokens: Vec<Token>) -> Result<Option<Spec>, OutOfMemory>
    ensures { IfOk result (λ built. option_map spec_view built ≡ spec_of (take count (token_views tokens.items))) }
{
    let mut front = tokens;
    front.truncate(count);
    build_spec(alloc, front)
}

/// Whether only the end of the text is left.
fn is_end(words: &[PlacedWord]) -> bool
    ensures { result ≡ is_end words.now }
{
    match words {
        [last] => is_text_end(last.word),
        _ => false,
    }
}

/// Whether the word is the end of the text.
fn is_text_end(word: Word) -> bool
    ensures { result ≡ is_text_end word }
{
    match word {
        Word::TextEnd => true,
        _ => false,
    }
}
