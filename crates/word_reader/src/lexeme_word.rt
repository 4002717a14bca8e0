// The word that a lexeme is.

ghost use Rattle.std.specs.Prelude.{◌≡◌, ◌≤◌, ◌-◌, ◌++◌, true, take, drop, length, map};
ghost use Rattle.word_reader.specs.Written.{are_rising, early_words, late_words, forms, signs, word_in};
ghost use Rattle.vdm_lexer.specs.declared.lexeme.LexKind.TheVariants.{Identifier as lex_identifier, Reserved as lex_reserved, Sign as lex_sign};
ghost use Rattle.word_reader.specs.Words.{slice_of, named_form, word_of_kind, word_of_lexeme};

use crate::written::{FORMS, SIGNS, WORDS_FROM_M, WORDS_TO_L};
use grammar_words::Word;
use vdm_lexer::{LexKind, Lexeme};

/// The word that a lexeme of a text is, alone.
pub fn word_of_lexeme(text: &[u8], lexeme: Lexeme) -> Word
    ensures { result ≡ word_of_lexeme text.now lexeme }
{
    word_of_kind(lexeme.kind, slice_of(text, lexeme))
}

/// The bytes of a lexeme.
pub fn slice_of(text: &[u8], lexeme: Lexeme) -> &[u8]
    ensures { result.now ≡ slice_of text.now lexeme }
{
    taken(
        behind(text, lexeme.start),
        lexeme.end.saturating_sub(lexeme.start),
    )
}

/// The first so many bytes of a text, or all where it has fewer.
fn taken(text: &[u8], n: usize) -> &[u8]
    ensures { result.now ≡ take n text.now }
{
    if n < text.len() { &text[..n] } else { text }
}

/// What stands behind the first so many bytes of a text.
fn behind(text: &[u8], n: usize) -> &[u8]
    ensures { result.now ≡ drop n text.now }
{
    if n < text.len() { &text[n..] } else { &[] }
}

/// The word that a lexeme with these bytes is.
fn word_of_kind(kind: LexKind, piece: &[u8]) -> Word
    ensures { result ≡ word_of_kind kind piece.now }
{
    match kind {
        LexKind::Identifier => identifier_word(piece),
        LexKind::Whole => Word::Whole,
        LexKind::Character => Word::Character,
        LexKind::Text => Word::Text,
        LexKind::Quote => Word::Quote,
        LexKind::Reserved => reserved_word(piece),
        LexKind::Sign => sign_word(piece),
        LexKind::End => Word::TextEnd,
    }
}

/// The word of an identifier.
fn identifier_word(piece: &[u8]) -> Word
    ensures { result ≡ word_of_kind lex_identifier piece.now }
{
    match word_in(piece, &FORMS) {
        Some(word) => word,
        None => named_form(piece),
    }
}

/// The word of an identifier that is no form of its own.
fn named_form(piece: &[u8]) -> Word
    ensures { result ≡ named_form piece.now }
{
    if piece.starts_with(b"mk_") {
        Word::MakeNamed
    } else if piece.starts_with(b"is_") {
        Word::IsNamed
    } else {
        Word::Identifier
    }
}

/// The word of a reserved word.
fn reserved_word(piece: &[u8]) -> Word
    ensures { result ≡ word_of_kind lex_reserved piece.now }
{
    match word_in(piece, &WORDS_TO_L) {
        Some(word) => word,
        None => word_in(piece, &WORDS_FROM_M).unwrap_or(Word::TextEnd),
    }
}

/// The word of a sign.
fn sign_word(piece: &[u8]) -> Word
    ensures { result ≡ word_of_kind lex_sign piece.now }
{
    word_in(piece, &SIGNS).unwrap_or(Word::TextEnd)
}

/// The word of a text in rows that rise, by halving.
fn word_in(text: &[u8], rows: &[(&[u8], Word)]) -> Option<Word>
    requires { are_rising (map (λ row. (row.0.now, row.1)) rows.now) ≡ true }
    ensures { result ≡ word_in text.now (map (λ row. (row.0.now, row.1)) rows.now) }
{
    match rows.binary_search_by_key(&text, |row| row.0) {
        Ok(i) => Some(rows[i].1),
        Err(_) => None,
    }
}
