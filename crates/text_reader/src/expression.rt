// The expression's text.

ghost use Rattle.std.specs.Prelude.{◌≡◌, ◌<◌, ◌^◌, length, IfOk, Ok, Err, drop};
ghost use Rattle.vdm_kinds.specs.declared.part.Part.TheVariants as part_of;
ghost use Rattle.vdm_kinds.specs.declared.spec_fault.SpecFault.{SpecFault};
ghost use Rattle.vdm_lexer.specs.Lexemes.{lexemes};
ghost use Rattle.token_reader.specs.Read.{KeepsNames};
ghost use Rattle.text_phases.specs.Phases.{unless_end, parsed_expr};
ghost use Rattle.expr_tree.specs.View.{view_of};

use expr_grammar::expr_of_tokens;
use std::alloc::Global;
use vdm_kinds::{Halt, Part, SpecFault, SpecKind};
use vdm_lexer::{Lexeme, lex};
use vdm_names::Names;
use vdm_tree::Expr;

/// The tree of an expression's text and the names behind it, or the first fault of its lexemes and its grammar: the whole text is
/// one expression. Want of memory is told apart. Whatever comes, the names that there were stay in front.
pub fn parse_expression(
    alloc: Global,
    text: &[u8],
    names: &mut Names,
) -> Result<Expr, Halt<SpecFault>>
    requires { length names.old < 2 ^ 31 }
    ensures tree { IfOk result (λ e. parsed_expr names.old text.now (lexemes part_of.Expr text.now) ≡ Ok (names.new, view_of e)) }
    ensures refused { (fault : SpecFault) → result ≡ Err (Halt.Of fault)
        → parsed_expr names.old text.now (lexemes part_of.Expr text.now) ≡ Err fault }
    ensures kept { KeepsNames names.old names.new }
{
    let found = lex(alloc, Part::Expr, text)?;
    let (expr, next) = expr_of_tokens(alloc, text, &found, 0, names)?;
    match unless_end(behind(&found, next)) {
        Some(fault) => Err(Halt::Of(fault)),
        None => Ok(expr),
    }
}

/// The lexemes behind the first so many.
fn behind(found: &[Lexeme], n: usize) -> &[Lexeme]
    ensures { result.now ≡ drop n found.now }
{
    if n < found.len() { &found[n..] } else { &[] }
}

/// The fault of what is left, unless that is the end.
fn unless_end(left: &[Lexeme]) -> Option<SpecFault>
    ensures { result ≡ unless_end left.now }
{
    match left {
        [lexeme, _, ..] => Some(SpecFault {
            kind: SpecKind::SyntaxFault,
            place: lexeme.place,
        }),
        [_] | [] => None,
    }
}
