// The law of types. It is the contract of a function that does nothing.

ghost use Rattle.std.specs.Prelude.{◌≡◌, ◌↔◌, List, Some};
ghost use Rattle.abstract_syntax.specs.Types.{TypeTree};
ghost use Rattle.grammar_words.specs.Tokens.{Token};
ghost use Rattle.type_reading.specs.Reading.{type_of};
ghost use Rattle.type_reading.specs.TypeSpelling.{IsTypeOf};

/// Tokens are at most one type of the grammar, and reading them from left to right finds it.
pub fn types_are_read()
    ensures read { (tokens : List Token) (tree : TypeTree) → type_of tokens ≡ Some tree ↔ IsTypeOf tokens tree }
    ensures one { (tokens : List Token) (a b : TypeTree) → IsTypeOf tokens a → IsTypeOf tokens b → a ≡ b }
{}
