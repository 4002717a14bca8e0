// Signs.

ghost use Rattle.std.specs.Prelude.{◌≡◌};
ghost use Rattle.vdm_lexer.specs.Signs.{sign_token, sign_front};

use crate::front::Front;
use crate::lexeme::LexKind;
use crate::piece::taken;
use crate::written::{WrittenKind, longest_sign, sign_kind};
use vdm_kinds::SpecKind;

/// The longest sign that a text begins with.
pub fn sign_front(text: &[char]) -> Front
    ensures { result ≡ sign_front text.now }
{
    let sign = longest_sign(text);
    sign_token(sign_kind(taken(text, sign)), sign)
}

/// What a text begins with, by the kind and the length of the longest sign.
fn sign_token(kind: Option<WrittenKind>, sign: usize) -> Front
    ensures { result ≡ sign_token kind sign }
{
    match kind {
        Some(WrittenKind::Sign) if sign > 0 => Front::Token(LexKind::Sign, sign - 1),
        Some(WrittenKind::LeftOut) => Front::Fault(SpecKind::LeftOut, 0),
        _ => Front::Fault(SpecKind::LexFault, 0),
    }
}
