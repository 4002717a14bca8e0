// The token of a word.

ghost use Rattle.std.specs.Prelude.{◌≡◌, ◌+◌, ◌<◌, ◌≤◌, ◌^◌, drop, length, IfOk, OnOk, Some};
ghost use Rattle.std.specs.Str.{IsUtf8, chars, encode_utf8_all};
ghost use Rattle.vdm_kinds.specs.NameList.{with_name};
ghost use Rattle.vdm_lexer.specs.declared.lexeme.LexKind.TheVariants as lex;
ghost use Rattle.grammar_tokens.specs.View.{token_view};
ghost use Rattle.token_reader.specs.Read.{KeepsNames, identifier_text, identifier_token, name_in, name_text, token_of, with_text};
ghost use Rattle.token_reader.specs.Values.{whole_value};

use crate::characters::{behind, between, characters_of, first, str_of, string_of};
use crate::escape::decoded;
use crate::whole::whole_value;
use grammar_tokens::Token;
use grammar_words::{PlacedWord, Word};
use std::alloc::Global;
use vdm_kinds::{Name, OutOfMemory, Place};
use vdm_lexer::LexKind;
use vdm_names::Names;

/// The token of a lexeme with these bytes that is, or begins, this word. It is named where it has a name.
pub fn token_of(
    alloc: Global,
    kind: LexKind,
    word: PlacedWord,
    piece: &[u8],
    names: &mut Names,
) -> Result<Token, OutOfMemory>
    requires room { length names.old < 2 ^ 32 }
    requires utf8 { IsUtf8 piece.now }
    requires small { kind ≡ lex.Whole → whole_value (chars piece.now) < 2 ^ 127 }
    ensures token { IfOk result (λ token. token_view token ≡ token_of names.old kind word.word piece.now word.place) }
    ensures names { OnOk result (names.new ≡ with_text names.old (name_text kind word.word piece.now)) }
    ensures kept { KeepsNames names.old names.new }
    ensures room { length names.new ≤ length names.old + 1 }
{
    let place = word.place;
    match kind {
        LexKind::Identifier => identifier_token(alloc, word, piece, names),
        LexKind::Quote => {
            let characters = characters_of(alloc, piece)?;
            let name = name_of(alloc, between(&characters), names)?;
            Ok(Token::Quote(name, place))
        }
        LexKind::Whole => {
            let characters = characters_of(alloc, piece)?;
            Ok(Token::Whole(whole_value(&characters), place))
        }
        LexKind::Character => {
            let characters = characters_of(alloc, piece)?;
            let value = decoded(alloc, between(&characters))?;
            Ok(Token::Character(first(&value), place))
        }
        LexKind::Text => {
            let characters = characters_of(alloc, piece)?;
            Ok(Token::Text(decoded(alloc, between(&characters))?, place))
        }
        LexKind::Reserved | LexKind::Sign | LexKind::End => Ok(Token::Plain(word.word, place)),
    }
}

/// The token of an identifier.
fn identifier_token(
    alloc: Global,
    word: PlacedWord,
    piece: &[u8],
    names: &mut Names,
) -> Result<Token, OutOfMemory>
    requires room { length names.old < 2 ^ 32 }
    requires utf8 { IsUtf8 piece.now }
    ensures token { IfOk result (λ token. token_view token ≡ identifier_token names.old word.word piece.now word.place) }
    ensures names { OnOk result (names.new ≡ with_text names.old (identifier_text word.word piece.now)) }
    ensures kept { KeepsNames names.old names.new }
    ensures room { length names.new ≤ length names.old + 1 }
{
    let place = word.place;
    match word.word {
        Word::Identifier => Ok(Token::Identifier(name_of_text(str_of(piece), names)?, place)),
        Word::MakeNamed => Ok(Token::MakeNamed(form_name(alloc, piece, names)?, place)),
        Word::IsNamed => Ok(Token::IsNamed(form_name(alloc, piece, names)?, place)),
        other => Ok(Token::Plain(other, place)),
    }
}

/// The name behind the first three characters.
fn form_name(alloc: Global, piece: &[u8], names: &mut Names) -> Result<Name, OutOfMemory>
    requires room { length names.old < 2 ^ 32 }
    requires utf8 { IsUtf8 piece.now }
    ensures name { IfOk result (λ name. name ≡ name_in names.old (encode_utf8_all (drop 3 (chars piece.now)))) }
    ensures names { OnOk result (names.new ≡ with_name names.old (encode_utf8_all (drop 3 (chars piece.now)))) }
    ensures kept { KeepsNames names.old names.new }
    ensures room { length names.new ≤ length names.old + 1 }
{
    let characters = characters_of(alloc, piece)?;
    name_of(alloc, behind(&characters, 3), names)
}

/// The name of characters.
fn name_of(alloc: Global, characters: &[char], names: &mut Names) -> Result<Name, OutOfMemory>
    requires { length names.old < 2 ^ 32 }
    ensures name { IfOk result (λ name. name ≡ name_in names.old (encode_utf8_all characters.now)) }
    ensures names { OnOk result (names.new ≡ with_name names.old (encode_utf8_all characters.now)) }
    ensures kept { KeepsNames names.old names.new }
    ensures room { length names.new ≤ length names.old + 1 }
{
    let text = string_of(alloc, characters)?;
    name_of_text(text.as_str(), names)
}

/// The name of a text.
fn name_of_text(text: &str, names: &mut Names) -> Result<Name, OutOfMemory>
    requires { length names.old < 2 ^ 32 }
    ensures name { IfOk result (λ name. name ≡ name_in names.old text.now) }
    ensures names { OnOk result (names.new ≡ with_name names.old text.now) }
    ensures kept { KeepsNames names.old names.new }
    ensures room { length names.new ≤ length names.old + 1 }
{
    names.name(text)
}
