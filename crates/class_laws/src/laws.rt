// Laws of what tokens are read as a specification. Each is the contract of a function that does nothing.

ghost use Rattle.std.specs.Prelude.{◌≡◌, ◌≤◌, List, Some};
ghost use Rattle.abstract_syntax.specs.Depth.{spec_depth};
ghost use Rattle.abstract_syntax.specs.Classes.{SpecTree};
ghost use Rattle.grammar_words.specs.Tokens.{Token};
ghost use Rattle.stmt_trees.specs.Trees.{IsSpecification};
ghost use Rattle.stmt_reading.specs.Statements.{nesting_limit};
ghost use Rattle.stmt_reading.specs.Classes.{spec_of};

/// What is read off tokens is a specification of the grammar, and the tokens are those that it is written with.
pub fn what_is_read_is_a_specification()
    ensures { (tokens : List Token) (tree : SpecTree) → spec_of tokens ≡ Some tree → IsSpecification tokens tree }
{}

/// A specification that is written down and read again is the same, where no more is nested than is read.
pub fn specifications_are_read()
    ensures { (tokens : List Token) (tree : SpecTree) → IsSpecification tokens tree → spec_depth tree ≤ nesting_limit → spec_of tokens ≡ Some tree }
{}

/// A list of tokens is at most one specification, however deep.
pub fn one_specification()
    ensures { (tokens : List Token) (a b : SpecTree) → IsSpecification tokens a → IsSpecification tokens b → a ≡ b }
{}
