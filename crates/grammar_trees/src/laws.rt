// Laws of trees and tokens. Each is the contract of a function that does nothing.

ghost use Rattle.std.specs.Prelude.{◌≡◌, ◌↔◌, List, [], ◌∷◌, Some, None};
ghost use Rattle.vdm_kinds.specs.declared.basic_type.BasicType.TheVariants.{Nat};
ghost use Rattle.vdm_kinds.specs.declared.sign.Sign.TheVariants as sign_is;
ghost use Rattle.abstract_syntax.specs.Types.{basic_type, seq_type};
ghost use Rattle.grammar_words.specs.declared.word.Word.TheVariants as word_is;
ghost use Rattle.grammar_trees.specs.Worked.{row, pattern_row, a, b, c, d, w, num, sign, an, bn, cn, dn, lit, both, pre, ap_n, bp_n, col, name_a, name_b, name_c};
ghost use Rattle.abstract_syntax.specs.Expressions.{ExprTree, PatternTree, bracketed, select, apply, one_expr, no_exprs, if_else, no_branches, let_in, let_be, one_defined, no_defined, given_expr, left_out, set_comprehension, set_range, bind_in, one_bind, no_binds, one_pattern, no_patterns, cases_of, one_case, no_cases, is_of_type, concatenation_pattern, for_all, old_value, qualified};
ghost use Rattle.grammar_words.specs.Tokens.{Token};
ghost use Rattle.grammar_trees.specs.Trees.{IsTree, IsPatternOf};
ghost use Rattle.grammar_trees.specs.Reading.{expr_of, pattern_of};

/// A list of tokens is at most one expression.
pub fn one_tree()
    ensures { (tokens : List Token) (a b : ExprTree) → IsTree tokens a → IsTree tokens b → a ≡ b }
{}

/// A list of tokens is at most one pattern.
pub fn one_pattern()
    ensures { (tokens : List Token) (a b : PatternTree) → IsPatternOf tokens a → IsPatternOf tokens b → a ≡ b }
{}

/// What is read off tokens is the expression that they are, and nothing where they are none. So an expression that is written
/// down and read again is the same.
pub fn expressions_are_read()
    ensures { (tokens : List Token) (tree : ExprTree) → (expr_of tokens ≡ Some tree) ↔ IsTree tokens tree }
{}

/// What is read off tokens is the pattern that they are, and nothing where they are none.
pub fn patterns_are_read()
    ensures { (tokens : List Token) (tree : PatternTree) → (pattern_of tokens ≡ Some tree) ↔ IsPatternOf tokens tree }
{}

/// How operators group, and how far prefixes and other forms reach.
pub fn worked_operators()
    ensures minus_div { row (sign sign_is.Minus ∷ num 14 ∷ sign sign_is.Div ∷ num 3 ∷ []) ≡ Some (both (pre sign_is.Negative 1 (lit 14 2)) sign_is.Div 3 (lit 3 4)) }
    ensures minus_power { row (sign sign_is.Minus ∷ num 2 ∷ sign sign_is.Exponent ∷ num 3 ∷ []) ≡ Some (pre sign_is.Negative 1 (both (lit 2 2) sign_is.Exponent 3 (lit 3 4))) }
    ensures not_equal { row (sign sign_is.Not ∷ a ∷ sign sign_is.Equal ∷ b ∷ []) ≡ Some (pre sign_is.Not 1 (both (an 2) sign_is.Equal 3 (bn 4))) }
    ensures not_and { row (sign sign_is.Not ∷ a ∷ sign sign_is.And ∷ b ∷ []) ≡ Some (both (pre sign_is.Not 1 (an 2)) sign_is.And 3 (bn 4)) }
    ensures equal_not { row (a ∷ sign sign_is.Equal ∷ sign sign_is.Not ∷ b ∷ sign sign_is.Equal ∷ c ∷ []) ≡ Some (both (an 1) sign_is.Equal 2 (pre sign_is.Not 3 (both (bn 4) sign_is.Equal 5 (cn 6)))) }
    ensures differences { row (a ∷ sign sign_is.Minus ∷ b ∷ sign sign_is.Minus ∷ c ∷ []) ≡ Some (both (both (an 1) sign_is.Minus 2 (bn 3)) sign_is.Minus 4 (cn 5)) }
    ensures powers { row (num 2 ∷ sign sign_is.Exponent ∷ num 3 ∷ sign sign_is.Exponent ∷ num 2 ∷ []) ≡ Some (both (lit 2 1) sign_is.Exponent 2 (both (lit 3 3) sign_is.Exponent 4 (lit 2 5))) }
    ensures implications { row (a ∷ sign sign_is.Implies ∷ b ∷ sign sign_is.Implies ∷ c ∷ []) ≡ Some (both (an 1) sign_is.Implies 2 (both (bn 3) sign_is.Implies 4 (cn 5))) }
    ensures levels { row (a ∷ sign sign_is.Plus ∷ b ∷ sign sign_is.Times ∷ c ∷ []) ≡ Some (both (an 1) sign_is.Plus 2 (both (bn 3) sign_is.Times 4 (cn 5))) }
    ensures product_first { row (a ∷ sign sign_is.Times ∷ b ∷ sign sign_is.Plus ∷ c ∷ []) ≡ Some (both (both (an 1) sign_is.Times 2 (bn 3)) sign_is.Plus 4 (cn 5)) }
    ensures prefix_inside { row (a ∷ sign sign_is.Exponent ∷ sign sign_is.Minus ∷ b ∷ sign sign_is.Plus ∷ c ∷ []) ≡ Some (both (both (an 1) sign_is.Exponent 2 (pre sign_is.Negative 3 (bn 4))) sign_is.Plus 5 (cn 6)) }
    ensures loose_prefix_inside { row (sign sign_is.Minus ∷ sign sign_is.Not ∷ a ∷ sign sign_is.Equal ∷ b ∷ []) ≡ Some (pre sign_is.Negative 1 (pre sign_is.Not 2 (both (an 3) sign_is.Equal 4 (bn 5)))) }
    ensures membership { row (a ∷ sign sign_is.InSet ∷ b ∷ sign sign_is.Union ∷ c ∷ []) ≡ Some (both (an 1) sign_is.InSet 2 (both (bn 3) sign_is.Union 4 (cn 5))) }
    ensures no_operand { row (a ∷ sign sign_is.Plus ∷ []) ≡ None }
    ensures not_between { row (a ∷ sign sign_is.Not ∷ b ∷ []) ≡ None }
{}

/// Postfixes, and what goes to the right as far as it can.
pub fn worked_forms()
    ensures members { row (a ∷ w word_is.Dot ∷ b ∷ w word_is.Dot ∷ c ∷ []) ≡ Some (select (select (an 1) name_b (col 3) (col 2)) name_c (col 5) (col 4)) }
    ensures applications { row (a ∷ w word_is.OpenRound ∷ num 1 ∷ w word_is.CloseRound ∷ w word_is.OpenRound ∷ num 2 ∷ w word_is.CloseRound ∷ []) ≡ Some (apply (apply (an 1) (one_expr (lit 1 3) no_exprs) (col 2)) (one_expr (lit 2 6) no_exprs) (col 5)) }
    ensures minus_applied { row (sign sign_is.Minus ∷ a ∷ w word_is.OpenRound ∷ w word_is.CloseRound ∷ []) ≡ Some (pre sign_is.Negative 1 (apply (an 2) no_exprs (col 3))) }
    ensures class_name { row (a ∷ w word_is.Backquote ∷ b ∷ []) ≡ Some (qualified name_a name_b (col 3) (col 1)) }
    ensures before { row (a ∷ w word_is.Tilde ∷ sign sign_is.Plus ∷ num 1 ∷ []) ≡ Some (both (old_value name_a (col 1)) sign_is.Plus 3 (lit 1 4)) }
    ensures else_reaches { row (w word_is.If ∷ a ∷ w word_is.Then ∷ b ∷ w word_is.Else ∷ c ∷ sign sign_is.Plus ∷ d ∷ []) ≡ Some (if_else (an 2) (bn 4) no_branches (both (cn 6) sign_is.Plus 7 (dn 8)) (col 1)) }
    ensures else_inside { row (a ∷ sign sign_is.Times ∷ w word_is.If ∷ a ∷ w word_is.Then ∷ b ∷ w word_is.Else ∷ c ∷ sign sign_is.Plus ∷ d ∷ []) ≡ Some (both (an 1) sign_is.Times 2 (if_else (an 4) (bn 6) no_branches (both (cn 8) sign_is.Plus 9 (dn 10)) (col 3))) }
    ensures nearest_if { row (w word_is.If ∷ a ∷ w word_is.Then ∷ w word_is.If ∷ b ∷ w word_is.Then ∷ c ∷ w word_is.Else ∷ d ∷ w word_is.Else ∷ a ∷ []) ≡ Some (if_else (an 2) (if_else (bn 5) (cn 7) no_branches (dn 9) (col 4)) no_branches (an 11) (col 1)) }
    ensures in_brackets { row (w word_is.OpenRound ∷ a ∷ sign sign_is.Plus ∷ b ∷ w word_is.CloseRound ∷ sign sign_is.Times ∷ c ∷ []) ≡ Some (both (bracketed (both (an 2) sign_is.Plus 3 (bn 4)) (col 1)) sign_is.Times 6 (cn 7)) }
    ensures defined { row (w word_is.Let ∷ a ∷ sign sign_is.Equal ∷ num 1 ∷ w word_is.In ∷ a ∷ sign sign_is.Plus ∷ num 2 ∷ []) ≡ Some (let_in (one_defined (ap_n 2) None (lit 1 4) no_defined) (both (an 6) sign_is.Plus 7 (lit 2 8)) (col 1)) }
    ensures such_that { row (w word_is.Let ∷ a ∷ w word_is.Comma ∷ b ∷ sign sign_is.InSet ∷ c ∷ w word_is.Be ∷ w word_is.St ∷ d ∷ w word_is.In ∷ a ∷ []) ≡ Some (let_be (bind_in (one_pattern (ap_n 2) (one_pattern (bp_n 4) no_patterns)) (cn 6)) (given_expr (dn 9)) (an 11) (col 1)) }
    ensures set_of { row (w word_is.OpenCurly ∷ a ∷ w word_is.Bar ∷ a ∷ sign sign_is.InSet ∷ b ∷ w word_is.Ampersand ∷ c ∷ w word_is.CloseCurly ∷ []) ≡ Some (set_comprehension (an 2) (one_bind (bind_in (one_pattern (ap_n 4) no_patterns) (bn 6)) no_binds) (given_expr (cn 8)) (col 1)) }
    ensures range { row (w word_is.OpenCurly ∷ a ∷ w word_is.Comma ∷ w word_is.Dots ∷ w word_is.Comma ∷ b ∷ w word_is.CloseCurly ∷ []) ≡ Some (set_range (an 2) (bn 6) (col 1)) }
    ensures quantified { row (w word_is.Forall ∷ a ∷ sign sign_is.InSet ∷ b ∷ w word_is.Ampersand ∷ a ∷ sign sign_is.Or ∷ c ∷ []) ≡ Some (for_all (one_bind (bind_in (one_pattern (ap_n 2) no_patterns) (bn 4)) no_binds) (both (an 6) sign_is.Or 7 (cn 8)) (col 1)) }
    ensures cases { row (w word_is.Cases ∷ a ∷ w word_is.Colon ∷ b ∷ w word_is.Arrow ∷ c ∷ w word_is.Comma ∷ w word_is.Others ∷ w word_is.Arrow ∷ d ∷ w word_is.End ∷ w word_is.OpenRound ∷ w word_is.CloseRound ∷ []) ≡ Some (apply (cases_of (an 2) (one_case (one_pattern (bp_n 4) no_patterns) (cn 6) no_cases) (given_expr (dn 10)) (col 1)) no_exprs (col 12)) }
    ensures typed { row (w word_is.IsType ∷ w word_is.OpenRound ∷ a ∷ w word_is.Comma ∷ w word_is.Seq ∷ w word_is.Of ∷ w (word_is.Basic Nat) ∷ w word_is.CloseRound ∷ []) ≡ Some (is_of_type (an 3) (seq_type (basic_type Nat (col 7)) (col 5)) (col 1)) }
    ensures joined_patterns { pattern_row (a ∷ sign sign_is.Concatenation ∷ b ∷ []) ≡ Some (concatenation_pattern (one_pattern (ap_n 1) (one_pattern (bp_n 3) no_patterns)) (col 1)) }
    ensures two_for_iota { row (w word_is.Iota ∷ a ∷ w word_is.Comma ∷ b ∷ sign sign_is.InSet ∷ c ∷ w word_is.Ampersand ∷ d ∷ []) ≡ None }
    ensures one_in_tuple { row (w word_is.MakeTuple ∷ w word_is.OpenRound ∷ a ∷ w word_is.CloseRound ∷ []) ≡ None }
    ensures two_items { row (w word_is.OpenSquare ∷ a ∷ w word_is.Comma ∷ w word_is.CloseSquare ∷ []) ≡ None }
    ensures only_others { row (w word_is.Cases ∷ a ∷ w word_is.Colon ∷ w word_is.Others ∷ w word_is.Arrow ∷ b ∷ w word_is.End ∷ []) ≡ None }
{}
