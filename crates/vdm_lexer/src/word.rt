// Words.

ghost use Rattle.std.specs.Prelude.{◌≡◌, ◌<◌, ◌^◌, length};
ghost use Rattle.vdm_lexer.specs.Words.{word_front, word_token};

use crate::front::Front;
use crate::lexeme::LexKind;
use crate::piece::{behind, taken, word_length};
use crate::written::{WrittenKind, word_kind};
use vdm_kinds::SpecKind;

/// The first character of a text, where it is a letter, and all characters of words behind it.
pub fn word_front(text: &[char]) -> Front
    requires { length text.now < 2 ^ 32 }
    ensures { result ≡ word_front text.now }
{
    let more = word_length(behind(text, 1));
    word_token(word_kind(taken(text, more + 1)), more)
}

/// What a word is, by its kind in the table; so many characters stand behind its first.
fn word_token(kind: Option<WrittenKind>, more: usize) -> Front
    ensures { result ≡ word_token kind more }
{
    match kind {
        Some(WrittenKind::LeftOut) => Front::Fault(SpecKind::LeftOut, 0),
        Some(WrittenKind::Reserved) => Front::Token(LexKind::Reserved, more),
        _ => Front::Token(LexKind::Identifier, more),
    }
}
