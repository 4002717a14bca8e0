// Comments.

ghost use Rattle.std.specs.Prelude.{◌≡◌, ◌<◌, ◌^◌, length, IfSome};
ghost use Rattle.vdm_lexer.specs.Comments.{line_comment, block_comment, comment_close};

use crate::front::Front;
use crate::piece::{begins, behind, line_length};
use vdm_kinds::SpecKind;

/// A comment to the end of its line, of what stands behind its first character.
pub fn line_comment(behind: &[char]) -> Front
    ensures { result ≡ line_comment behind.now }
{
    Front::Space(line_length(behind))
}

/// A comment between signs, of what stands behind its `/*`.
pub fn block_comment(behind: &[char]) -> Front
    requires { length behind.now < 2 ^ 32 }
    ensures { result ≡ block_comment behind.now }
{
    match comment_close(behind) {
        None => Front::Fault(SpecKind::LexFault, 0),
        Some(inside) => Front::Space(inside + 3),
    }
}

/// How many characters stand before the next `*/`.
fn comment_close(text: &[char]) -> Option<usize>
    ensures close { result ≡ comment_close text.now }
    ensures within { IfSome result (λ n. n < length text.now) }
{
    for i in 0..text.len() {
        if begins(behind(text, i), b"*/") {
            return Some(i);
        }
    }
    None
}
