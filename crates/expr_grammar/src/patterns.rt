// Patterns.

ghost use Rattle.std.specs.Prelude.{◌≡◌, ◌<◌, ◌^◌, length, Ok, Err, IfOk, OnOk};
ghost use Rattle.vdm_kinds.specs.declared.spec_fault.SpecFault.{SpecFault};
ghost use Rattle.grammar_fronts.specs.declared.kind.Kind.TheVariants as kind_of;
ghost use Rattle.grammar_trees.specs.Reading.{pattern_of};
ghost use Rattle.expr_tree.specs.View.{pattern_view};
ghost use Rattle.token_reader.specs.Read.{KeepsNames};
ghost use Rattle.text_answers.specs.Answers.{AreOf, answer, names_read};

use crate::front::read_front;
use expr_builder::build_pattern;
use expr_tree::Pattern;
use grammar_fronts::Kind;
use std::alloc::Global;
use vdm_kinds::{Halt, SpecFault};
use vdm_lexer::Lexeme;
use vdm_names::Names;

/// The pattern that a text has from the lexeme with this number on, as far as one goes on, and the number of the lexeme
/// behind it. The identifiers of the pattern are given to the names in text order; after a refusal there may be more
/// names.
pub fn pattern_of_tokens(
    alloc: Global,
    text: &[u8],
    tokens: &[Lexeme],
    at: usize,
    names: &mut Names,
) -> Result<(Pattern, usize), Halt<SpecFault>>
    requires tokens { AreOf text.now tokens.now }
    requires at { at < length tokens.now }
    requires names { length names.old < 2 ^ 31 }
    ensures tree { IfOk result (λ found. answer pattern_of kind_of.Pattern names.old text.now tokens.now at ≡ Ok (pattern_view found.0, found.1)) }
    ensures refused { (fault : SpecFault) → result ≡ Err (Halt.Of fault) → answer pattern_of kind_of.Pattern names.old text.now tokens.now at ≡ Err fault }
    ensures names { OnOk result (names.new ≡ names_read kind_of.Pattern names.old text.now tokens.now at) }
    ensures kept { KeepsNames names.old names.new }
{
    let read = read_front(alloc, Kind::Pattern, text, tokens, at, names)?;
    match build_pattern(alloc, read.tokens)? {
        Some(tree) => Ok((tree, read.next)),
        None => Err(Halt::Of(read.fault)),
    }
}
