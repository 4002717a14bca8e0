// The laws of trees. Each is the contract of a function that does nothing.

ghost use Rattle.std.specs.Prelude.{◌≡◌, true, List};
ghost use Rattle.abstract_syntax.specs.Statements.{StmtTree};
ghost use Rattle.abstract_syntax.specs.Classes.{SpecTree};
ghost use Rattle.grammar_words.specs.Tokens.{Token};
ghost use Rattle.stmt_trees.specs.Trees.{IsStatement, IsSpecification};
ghost use Rattle.stmt_fronts.specs.declared.kind.Kind.TheVariants as kind;
ghost use Rattle.stmt_fronts.specs.Viable.{IsViable};
ghost use Rattle.stmt_fronts.specs.Fronts.{can_end};

/// The tokens of each statement of the grammar are viable, and nothing more has to come behind them in one of the ways.
pub fn statements_are_viable()
    ensures viable { (tokens : List Token) (tree : StmtTree) → IsStatement tokens tree → IsViable kind.Stmt tokens }
    ensures whole { (tokens : List Token) (tree : StmtTree) → IsStatement tokens tree → can_end kind.Stmt tokens ≡ true }
{}

/// The tokens of each specification of the grammar are viable, and nothing more has to come behind them in one of the ways.
pub fn specifications_are_viable()
    ensures viable { (tokens : List Token) (tree : SpecTree) → IsSpecification tokens tree → IsViable kind.Spec tokens }
    ensures whole { (tokens : List Token) (tree : SpecTree) → IsSpecification tokens tree → can_end kind.Spec tokens ≡ true }
{}
