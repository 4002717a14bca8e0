// Laws of what tokens are read as. Each is the contract of a function that does nothing.

ghost use Rattle.std.specs.Prelude.{◌≡◌, ℕ, ◌≤◌, true, List, ◌++◌, Some};
ghost use Rattle.abstract_syntax.specs.Depth.{stmt_depth};
ghost use Rattle.abstract_syntax.specs.Types.{TypeTree};
ghost use Rattle.abstract_syntax.specs.Expressions.{ExprTree, PatternTree};
ghost use Rattle.abstract_syntax.specs.Statements.{StmtTree};
ghost use Rattle.grammar_words.specs.Tokens.{Token};
ghost use Rattle.type_reading.specs.TypeSpelling.{IsTypeOf};
ghost use Rattle.grammar_trees.specs.Trees.{IsTree, IsPatternOf};
ghost use Rattle.stmt_trees.specs.Pieces.{Spelled};
ghost use Rattle.stmt_trees.specs.StmtSpelling.{stmt_spelling};
ghost use Rattle.stmt_trees.specs.StmtGrammar.{IsStmt};
ghost use Rattle.stmt_trees.specs.Trees.{IsStatement};
ghost use Rattle.stmt_reading.specs.Leaves.{type_in, pattern_in, expr_in};
ghost use Rattle.stmt_reading.specs.Statements.{stmt_in, nesting_limit, stmt_of};
ghost use Rattle.stmt_laws.specs.Ends.{ends_type, ends_pattern, ends_expr, ends_after, first_word};

/// A type, a pattern or an expression that stands before a word which ends it is read off the tokens, and all behind it is left.
pub fn leaves_are_read()
    ensures types { (front rest : List Token) (tree : TypeTree) → IsTypeOf front tree → ends_type (first_word rest) ≡ true
        → type_in (front ++ rest) ≡ Some (tree, rest) }
    ensures patterns { (front rest : List Token) (tree : PatternTree) → IsPatternOf front tree → ends_pattern (first_word rest) ≡ true
        → pattern_in (front ++ rest) ≡ Some (tree, rest) }
    ensures expressions { (front rest : List Token) (tree : ExprTree) → IsTree front tree → ends_expr (first_word rest) ≡ true
        → expr_in (front ++ rest) ≡ Some (tree, rest) }
{}

/// What is read off tokens is a statement of the grammar, and the tokens are those that it is written with.
pub fn what_is_read_is_a_statement()
    ensures { (tokens : List Token) (tree : StmtTree) → stmt_of tokens ≡ Some tree → IsStatement tokens tree }
{}

/// A statement that is written down and read again is the same: all of its tokens are, and so are those before a word that ends it,
/// in room for as many levels as it has.
pub fn statements_are_read()
    ensures before { (tokens rest : List Token) (tree : StmtTree) (room : ℕ) → Spelled tokens (stmt_spelling tree) rest → IsStmt tree
        → stmt_depth tree ≤ room → ends_after tree (first_word rest) ≡ true → stmt_in room tokens ≡ Some (tree, rest) }
    ensures whole { (tokens : List Token) (tree : StmtTree) → IsStatement tokens tree → stmt_depth tree ≤ nesting_limit
        → stmt_of tokens ≡ Some tree }
{}

/// A list of tokens is at most one statement, however deep.
pub fn one_statement()
    ensures { (tokens : List Token) (a b : StmtTree) → IsStatement tokens a → IsStatement tokens b → a ≡ b }
{}
