// The laws of trees. Each is the contract of a function that does nothing.

ghost use Rattle.std.specs.Prelude.{◌≡◌, ◌≤◌, List, map, take};
ghost use Rattle.abstract_syntax.specs.Expressions.{ExprTree, PatternTree};
ghost use Rattle.abstract_syntax.specs.Types.{TypeTree};
ghost use Rattle.abstract_syntax.specs.Depth.{type_depth, pattern_depth, expr_depth};
ghost use Rattle.grammar_words.specs.declared.word.PlacedWord.{PlacedWord};
ghost use Rattle.grammar_words.specs.Tokens.{Token, word_of};
ghost use Rattle.type_reading.specs.TypeSpelling.{IsTypeOf};
ghost use Rattle.grammar_trees.specs.Trees.{IsTree, IsPatternOf};
ghost use Rattle.grammar_fronts.specs.declared.kind.Kind.TheVariants as kind;
ghost use Rattle.grammar_fronts.specs.declared.front.Front.TheVariants.{Reaches};
ghost use Rattle.grammar_fronts.specs.declared.front.Reach.{Reach};
ghost use Rattle.grammar_fronts.specs.Fronts.{front_of, words_of};
ghost use Rattle.front_laws.specs.Whole.{IsWholeFront};

/// The words of each type, pattern and expression of the grammar are viable, and nothing more has to come behind them.
pub fn trees_are_whole_fronts()
    ensures types { (tokens : List Token) (tree : TypeTree) → IsTypeOf tokens tree → IsWholeFront kind.TypeExpr (map word_of tokens) }
    ensures patterns { (tokens : List Token) (tree : PatternTree) → IsPatternOf tokens tree → IsWholeFront kind.Pattern (map word_of tokens) }
    ensures expressions { (tokens : List Token) (tree : ExprTree) → IsTree tokens tree → IsWholeFront kind.Expr (map word_of tokens) }
{}

/// Where nothing in the longest front of words is too deep, the tree of that front has a depth of at most 200.
pub fn fronts_that_are_not_too_deep()
    ensures types { (words : List PlacedWord) (reach : Reach) (tokens : List Token) (tree : TypeTree) → front_of kind.TypeExpr words ≡ Reaches reach
        → map word_of tokens ≡ take reach.words (words_of words) → IsTypeOf tokens tree → type_depth tree ≤ 200 }
    ensures patterns { (words : List PlacedWord) (reach : Reach) (tokens : List Token) (tree : PatternTree) → front_of kind.Pattern words ≡ Reaches reach
        → map word_of tokens ≡ take reach.words (words_of words) → IsPatternOf tokens tree → pattern_depth tree ≤ 200 }
    ensures expressions { (words : List PlacedWord) (reach : Reach) (tokens : List Token) (tree : ExprTree) → front_of kind.Expr words ≡ Reaches reach
        → map word_of tokens ≡ take reach.words (words_of words) → IsTree tokens tree → expr_depth tree ≤ 200 }
{}
